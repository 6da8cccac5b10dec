//! Metamodels, repositories, adapters and streams that the tests use, and checks that several tests make.
pub(crate) mod books;
pub(crate) mod boxes;
pub(crate) mod counted;
pub(crate) mod faulty_streams;
pub(crate) mod kept;
pub(crate) mod latest;
pub(crate) mod library;
pub(crate) mod network;
pub(crate) mod no_links;
pub(crate) mod notices;
pub(crate) mod replies;
pub(crate) mod seeded_network;
pub(crate) mod seeds;
pub(crate) mod telling;
pub(crate) mod three_documents;
pub(crate) mod values;
pub(crate) mod views;
