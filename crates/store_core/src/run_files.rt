use crate::run_file::RunFile;
use std::marker::Model;

/// Files, of a partition the newest first. Contracts see them as a list.
#[derive(Drop)]
pub(crate) struct RunFiles {
    files: Vec<RunFile>,
}

impl Model for RunFiles {
    ghost use Rattle.std.specs.Prelude.{List};
    ghost use Rattle.store_core.specs.declared.run_file.RunFile.{RunFile};

    ghost Value = { List RunFile };

    ghost view = { λ f. f.files.items };
}
