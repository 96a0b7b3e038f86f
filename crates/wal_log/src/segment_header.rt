use std::marker::Model;

/// What a header names: a segment, and the number of its first entry.
#[derive(Clone, Copy)]
pub(crate) struct SegmentHeader {
    pub segment: u64,
    pub first: u64,
}

impl Model for SegmentHeader {
    ghost use Rattle.entry_code.specs.Payloads.{Header};

    ghost Value = { Header };

    ghost view = { λ h. record { segment = h.segment; first = h.first } };

    ghost inverse = { λ h. record { segment = h.segment; first = h.first } };
}
