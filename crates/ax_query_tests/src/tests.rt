mod expressions;
mod functions;
mod grammar;
mod sieve;
mod texts;
