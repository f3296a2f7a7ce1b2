mod delta;
mod frame;
mod gap;
mod leaf;
