mod audit_file;
mod faults;
mod files;
mod loops;
