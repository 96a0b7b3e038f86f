//! The bytes of tables, written out by hand; the place of each wrong field; what a flipped bit makes of a table.
mod building;
mod damage;
mod large;
mod made;
mod plain_pairs;
mod refusals;
