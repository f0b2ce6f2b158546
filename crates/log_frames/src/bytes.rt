//! Numbers in bytes, and bytes that are appended within the capacity of a vector.

ghost use Rattle.std.specs.Prelude.{◌≡◌, ◌+◌, ◌≤◌, ◌++◌, length, vec_len, vec_capacity};
ghost use Rattle.log_frames.specs.Frames.{be64, number_at as number_in};

// Returns the number in the eight bytes from `start` on, most significant byte first.
pub fn number_at(bytes: &[u8], start: usize) -> u64
    requires { start + 8 ≤ length bytes.now }
    ensures { result ≡ number_in start bytes.now }
{
    let (number, _) = bytes[start..].split_first_chunk::<8>().unwrap();
    u64::from_be_bytes(*number)
}

// Appends bytes. `out` has the capacity for them.
pub fn append(out: &mut Vec<u8>, bytes: &[u8])
    requires { vec_len out.old + length bytes.now ≤ vec_capacity out.old }
    ensures items { out.new.items ≡ out.old.items ++ bytes.now }
    ensures len { vec_len out.new ≡ vec_len out.old + length bytes.now }
    ensures capacity { vec_capacity out.old ≤ vec_capacity out.new }
{
    out.extend_from_slice(bytes).unwrap();
}

// Appends the eight bytes of a number, most significant byte first. `out` has the capacity for them.
pub fn append_number(out: &mut Vec<u8>, number: u64)
    requires { vec_len out.old + 8 ≤ vec_capacity out.old }
    ensures items { out.new.items ≡ out.old.items ++ be64 number }
    ensures len { vec_len out.new ≡ vec_len out.old + 8 }
    ensures capacity { vec_capacity out.old ≤ vec_capacity out.new }
{
    append(out, &number.to_be_bytes());
}
