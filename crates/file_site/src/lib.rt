//! The site over three files of a folder, standard input and standard output.
#![tactic(auto)]

mod book;
mod device;
mod drafts;
mod files;
mod folder;
mod intake;
mod lock;
mod making;
mod opening;
mod outlet;
mod progress;
mod trouble;
mod watch;

pub use files::FileSite;
pub use folder::{Folder, NoFolder, file_name};
pub use intake::Intake;
pub use lock::LockFile;
pub use outlet::tell_line;
pub use trouble::{Absence, Call, Failure, NoFiles};
pub use watch::Watch;
