//! The files of the system.

use std::fs::{File, Files};

/// The reader of the names in a folder of the system.
pub type SystemDir = <HostRuntime as Files>::Dir;

/// A handle of the system's files, which threads may share: the types of its files and folders are those of the system.
pub trait SystemFiles: Files<File = File, Dir = SystemDir> {}

impl<R: Files<File = File, Dir = SystemDir>> SystemFiles for R {}
