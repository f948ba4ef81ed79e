// The headers of a request.
ghost use Rattle.std.specs.Prelude.{◌≡◌, option_map};
ghost use Rattle.http_stream.specs.Body.{is_named};
ghost use Rattle.metadata_service.specs.Service.{header};

use http_stream::Request;
use vm_types::ByteList;

/// The value of the first header of that name, in upper or lower case.
pub fn header<'r>(name: &[u8], request: &'r Request) -> Option<&'r [u8]>
    ensures { option_map (λ value. value.now) result ≡ header name.now request.now }
{
    let header = request
        .headers
        .as_slice()
        .iter()
        .find(|header| is_named(name, header))?;
    Some(header.1.as_slice())
}

fn is_named(name: &[u8], header: &(ByteList, ByteList)) -> bool
    ensures { result ≡ is_named name.now header.now }
{
    header.0.as_slice().eq_ignore_ascii_case(name)
}
