//! What is a function of values alone.
mod arithmetic;
mod descriptors;
mod fields;
mod states;
