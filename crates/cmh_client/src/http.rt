//! Lines of HTTP among those of clients.

ghost use Rattle.std.specs.Prelude.{◌≡◌, map};
ghost use Rattle.cmh_client.specs.Http.{begins_with_any, speaks_http};

/// How a line of HTTP begins. A web page can have a browser send such lines to any port, and lines of its own after them.
const HTTP: [&[u8]; 10] = [
    b"GET ",
    b"POST ",
    b"PUT ",
    b"HEAD ",
    b"OPTIONS ",
    b"DELETE ",
    b"PATCH ",
    b"CONNECT ",
    b"TRACE ",
    b"Host:",
];

/// Whether a line begins as one of HTTP does.
pub fn speaks_http(line: &[u8]) -> bool
    ensures { result ≡ speaks_http line.now }
{
    begins_with_any(line, &HTTP)
}

fn begins_with_any(line: &[u8], words: &[&[u8]]) -> bool
    ensures { result ≡ begins_with_any line.now (map (λ word. word.now) words.now) }
{
    for word in words {
        if line.starts_with(word) {
            return true;
        }
    }
    false
}
