//! Tables of directories and of change lines, a case a line.
mod changes;
mod directories;
mod limits;
