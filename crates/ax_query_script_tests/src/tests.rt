mod asking;
mod edges;
mod filters;
mod plain_machine;
mod queries;
mod reading;
mod seventy;
