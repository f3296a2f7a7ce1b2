mod crashes;
mod disks;
mod far;
mod indexed;
mod many;
