use frame_journal::Frame;
use std::marker::Model;

/// The whole frames of a strip, in order.
#[derive(Drop)]
pub(crate) struct StripFrames {
    pub frames: Vec<Frame>,
}

impl Model for StripFrames {
    ghost use Rattle.std.specs.Prelude.{List};
    ghost use Rattle.frame_journal.specs.FrameValue.{FrameValue};

    ghost Value = { List FrameValue };

    ghost view = { λ s. s.frames.items };
}
