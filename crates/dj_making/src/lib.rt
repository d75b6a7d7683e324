//! The files that the program makes itself in place of loaded ones, with their names, and the line that ends the text of such a run.
//! It stands on `dj_make`, which makes one file, and on `dj_load`, which reads them and makes their world.
//! The layer above uses `made_names` (`names`, `number`), `made_files` (`named`, `number`, `unread`, `paths`, `library`) and `summary_line` (`line`).
#![tactic(auto)]

mod making;

pub use making::{made_files, made_names, summary_line};
