//! The commands on worked examples, reports that are written, read back and replayed, and the program with the files of
//! a folder. They stand with the program, so that what they call is not proved twice for them.

mod devices;
mod example_texts;
mod limits;
mod more_example_texts;
mod parts;
mod plain_texts;
mod ports;
mod program;
mod replayed_texts;
mod replays;
mod report_replays;
mod reports;
mod results;
mod runs;
mod undone;
mod worked;
mod written;
