//! Resources that are saved and loaded again, and their proxies.
mod left_proxies;
mod resolve_notices;
mod seeded_reloads;
mod three_resources;
