//! What is asked about: a circuit that is made of the files that are read, and what its safety says of them.
#![tactic(auto)]

mod error;
mod laws;
mod reading;
mod subject;

pub use error::SubjectError;
pub use laws::{safe_subjects_show, subjects_are_of_files};
pub use reading::read_subject;
pub use subject::{FileSubject, Subject, read_file_subject};
