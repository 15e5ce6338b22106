//! Scripts, and the texts of answers.
#![tactic(auto)]

mod answer;
mod damage;
pub mod laws;
mod line;
mod numbers;
mod script;
mod spelling;
mod splits;
mod text;

pub use answer::{short_line, short_text};
pub use bd_marks::Text;
pub use damage::damage_line;
pub use line::Line;
pub use numbers::number;
pub use script::{ScriptFault, read_script};
pub use text::answer_text;
