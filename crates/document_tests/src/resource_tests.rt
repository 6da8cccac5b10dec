//! Documents of resources: what they are read as, and why they are refused.
mod bad_bytes;
mod causes;
mod edges;
mod hostile_bytes;
mod readings;
