//! The commands: what each does with texts and files, and the one call that the program makes.
#![tactic(auto)]

mod alone;
mod answer;
mod both;
mod call;
mod lowered_text;
mod lowerer;
mod reader;
mod ready;
mod replayer;
mod replaying;
mod report_laws;
mod restructurer;
mod running;
mod shown;
mod text_replayer;
mod tidied_text;
mod tidier;
mod works;

pub use call::regoto;
pub use cmd_files::MOST_BYTES;
pub use cmd_words::{Job, STEPS, Status, command};
pub use lowered_text::{Lowered, lower_text};
pub use lowerer::TextLowerer;
pub use reader::TextReader;
pub use ready::{MOST_RUN_BYTES, ProgramReader, Ready, ready_program};
pub use replayer::{MOST_REPORT_BYTES, Replayer};
pub use replaying::replay_file;
pub use report_laws::report_law;
pub use running::run_file;
pub use shown::demo;
pub use text_replayer::TextReplayer;
pub use tidied_text::{Tidied, tidy_text};
pub use tidier::TextTidier;
