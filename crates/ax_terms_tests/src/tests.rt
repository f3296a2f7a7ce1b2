mod keep;
mod term;
mod terms;
