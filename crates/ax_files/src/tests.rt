mod failing_files;
mod fake_file;
mod held_files;
mod lost_files;
mod plain_file;
mod real_files;
mod told;
mod working_files;
