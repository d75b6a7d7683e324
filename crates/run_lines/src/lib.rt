//! What the programs for checks share: names, types, values and answers from the words of a line, types and shows in words, and a world of classes from their bytes.
//! It stands on `dj_names` for names and types, on `dj_values` for values, answers and shows, and on `dj_class` and `dj_world` for classes.
//! The programs above use what stands below; no clause says what words mean, and an independent check reads and writes them.
#![tactic(auto)]

mod asked;
mod names;
mod shown;
mod types;
mod values;
mod worlds;

pub use asked::Asked;
pub use names::{class_name_of, descriptor_of, type_of, units_of};
pub use shown::ShowText;
pub use types::{DescriptorText, TypeText};
pub use worlds::{add_class, add_filled, class_of_digits, fill};
