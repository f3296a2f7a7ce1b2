mod caches;
mod faults;
mod growth;
mod outputs;
mod statuses;
