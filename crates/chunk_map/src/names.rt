//! Names of collections, shards and files.

ghost use Rattle.std.specs.Prelude.{◌≡◌, ◌==◌, ◌||◌, not};
ghost use Rattle.std.specs.List.{list_all};
ghost use Rattle.chunk_map.specs.Form.{is_word_byte, has_size, is_collection_name, is_shard_name, is_file_name};

fn is_word_byte(b: u8) -> bool
    ensures { result ≡ is_word_byte b }
{
    b.is_ascii_alphanumeric() || b == b'_' || b == b'-'
}

fn has_size(name: &[u8], most: usize) -> bool
    ensures { result ≡ has_size most name.now }
{
    1 <= name.len() && name.len() <= most
}

fn are_word_bytes_and_dots(name: &[u8]) -> bool
    ensures { result ≡ list_all (λ b. is_word_byte b || (b == 46)) name.now }
{
    name.iter().all(|b| is_word_byte(*b) || *b == b'.')
}

fn are_word_bytes(name: &[u8]) -> bool
    ensures { result ≡ list_all is_word_byte name.now }
{
    name.iter().all(|b| is_word_byte(*b))
}

fn has_no_zero(name: &[u8]) -> bool
    ensures { result ≡ list_all (λ b. not (b == 0)) name.now }
{
    name.iter().all(|b| *b != 0)
}

/// 1 to 120 letters, digits, `_`, `-` and `.`.
pub fn is_collection_name(name: &[u8]) -> bool
    ensures { result ≡ is_collection_name name.now }
{
    has_size(name, 120) && are_word_bytes_and_dots(name)
}

/// 1 to 64 letters, digits, `_` and `-`.
pub fn is_shard_name(name: &[u8]) -> bool
    ensures { result ≡ is_shard_name name.now }
{
    has_size(name, 64) && are_word_bytes(name)
}

/// 1 to 1,024 bytes, none of them 0.
pub fn is_file_name(name: &[u8]) -> bool
    ensures { result ≡ is_file_name name.now }
{
    has_size(name, 1024) && has_no_zero(name)
}
