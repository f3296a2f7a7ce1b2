mod bodies;
mod limits;
mod lines;
