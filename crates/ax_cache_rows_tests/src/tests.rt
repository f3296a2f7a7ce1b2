mod answering;
mod reading;
mod rows;
