use remix_view::Spot;

/// What a cursor stands at.
#[derive(Clone, Copy, Debug)]
pub(crate) enum Head {
    /// The next newer row.
    Newer,
    /// The next newer row, and the version that it hides.
    Both,
    /// The version where the older side stands.
    Older(Spot),
    /// Nothing: no row is left.
    End,
}
