//! What holds of batches of changes.
ghost use Rattle.std.specs.Prelude.{ℕ, List};
ghost use Rattle.dir_records.specs.DirectoryValue.{DirectoryValue};
ghost use Rattle.dir_records.specs.IsDirectory.{IsDirectory};
ghost use Rattle.change_lines.specs.Batches.{after};

/// What is made of a directory by a batch, whatever bytes it is, is a directory.
pub fn batches_keep_directories()
    ensures { (dir : DirectoryValue) (batch : List ℕ) → IsDirectory dir → IsDirectory (after dir batch) }
{}
