mod bases;
mod built;
mod functions;
mod policies;
mod script;
mod sources;
mod stores;
