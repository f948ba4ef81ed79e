// What a stream of bytes gives.
use crate::headers::HeaderList;
use httparse::spans::HeaderSpan;
use refusals::Refusal;
use vm_types::{ByteList, TextList};

/// A whole request: its method and target as they came, its headers, and its body of at most 65,536 bytes.
#[derive(Drop)]
pub struct Request {
    pub method: TextList,
    pub path: TextList,
    pub headers: HeaderList,
    pub body: ByteList,
}

/// What a stream gives next.
#[derive(Drop)]
pub enum Next {
    Request(Request),
    /// No whole request has come yet, or the connection has failed.
    None,
    /// The connection fails: the body is too large, or the head isn't accepted.
    Bad(Refusal),
}

/// A whole request, as it lies in the bytes of a connection.
#[derive(Drop)]
pub struct Asked<'b> {
    pub method: &'b str,
    pub path: &'b str,
    /// The bytes in which its head ends.
    pub front: &'b [u8],
    /// Where its headers are in them.
    pub headers: &'b [HeaderSpan],
    pub body: &'b [u8],
}

/// What a stream gives next, as it lies in its bytes.
#[derive(Drop)]
pub enum Given<'b> {
    Request(Asked<'b>),
    /// No whole request has come yet, or the connection has failed.
    None,
    /// The connection fails: the body is too large, or the head isn't accepted.
    Bad(Refusal),
}
