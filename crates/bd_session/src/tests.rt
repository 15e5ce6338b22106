//! What lies outside: real disks and files, and those in memory.
mod disk;
mod files;
