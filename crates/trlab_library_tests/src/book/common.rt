//! Modules that the tests of the book share.

pub mod books;
pub mod expected;
pub mod jobs;
pub mod meeting;
pub mod replies;
pub mod table;
