//! n-fold (RFC 3961, section 5.1).

ghost use Rattle.std.specs.Prelude.{◌≡◌, ℕ, ◌+◌, ◌*◌, ◌/◌, ◌%◌, ◌^◌, ◌≤◌, ◌<◌, length, take, drop, replicate, slice_index};
ghost use Rattle.aes_core.specs.Inverses.{AreBytes};
ghost use Rattle.krb_crypto.specs.Folding.{bits, binary, common_multiple, copies, nfold};
ghost use Rattle.krb_crypto.specs.BytesValue.{bytes_value};

// The least common multiple of two lengths.
fn common_multiple(m: usize, n: usize) -> usize
    requires some { 0 < m }
    requires few { m ≤ 64 }
    requires other { n ≤ 64 }
    ensures value { result ≡ common_multiple m n }
    ensures exact { result % m ≡ 0 }
    ensures bound { result ≤ m * n }
{
    for k in 1..m {
        if k * n % m == 0 {
            return k * n;
        }
    }
    m * n
}

// The byte at an index of the copies of a text, each rotated by 13 bits more than the one before.
fn byte_of_copies(text: &[u8], at: usize) -> u8
    requires some { 0 < length text.now }
    requires few { length text.now ≤ 64 }
    requires low { at < 4096 }
    ensures { (count : ℕ) → at < count * length text.now → result ≡ binary (take 8 (drop (8 * at) (copies count (bits text.now)))) }
{
    let width = 8 * text.len();
    let place = 8 * (at % text.len()) + (width - 13 * (at / text.len()) % width);
    let high = u32::from(text[place / 8 % text.len()]);
    let low = u32::from(text[(place / 8 + 1) % text.len()]);
    (((256 * high + low) >> (8 - place % 8)) % 256) as u8
}

// The bytes of the copies from an index on.
fn piece_at(text: &[u8], from: usize, n: usize) -> [u8; 64]
    requires some { 0 < length text.now }
    requires few { length text.now ≤ 64 }
    requires low { from + n ≤ 4096 }
    requires high { n ≤ 64 }
    ensures { (count k : ℕ) → from + n ≤ count * length text.now → k < n
        → slice_index result k ≡ binary (take 8 (drop (8 * (from + k)) (copies count (bits text.now)))) }
{
    let mut piece = [0; 64];
    for k in 0..n {
        let byte = byte_of_copies(text, from + k);
        piece[k] = byte;
    }
    piece
}

// Adds the number of as many bytes, and a carry: the carry out.
fn add_bytes(sum: &mut [u8], addend: &[u8; 64], carry: u8) -> u8
    requires few { length sum.old ≤ 64 }
    requires low { carry ≤ 1 }
    ensures value { bytes_value sum.new + result * 256 ^ length sum.old ≡ bytes_value sum.old + bytes_value (take (length sum.old) addend.now) + carry }
    ensures low { result ≤ 1 }
    ensures bytes { AreBytes sum.new }
{
    let n = sum.len();
    let mut carry = carry;
    for k in 0..n {
        let total = u16::from(sum[n - 1 - k]) + u16::from(addend[n - 1 - k]) + u16::from(carry);
        sum[n - 1 - k] = (total % 256) as u8;
        carry = (total / 256) as u8;
    }
    carry
}

// Makes each byte zero.
fn clear(out: &mut [u8])
    ensures { out.new ≡ replicate (length out.old) 0 }
{
    out.fill(0);
}

/// Folds a text to as many bytes as `out` has.
pub fn nfold(text: &[u8], out: &mut [u8])
    requires some { 0 < length text.now }
    requires few { length text.now ≤ 64 }
    requires out_some { 0 < length out.old }
    requires out_few { length out.old ≤ 64 }
    ensures { out.new ≡ nfold (length out.old) text.now }
{
    let n = out.len();
    let whole = common_multiple(text.len(), n);
    clear(out);
    for j in 0..whole / n {
        let piece = piece_at(text, n * j, n);
        let carry = add_bytes(out, &piece, 0);
        add_bytes(out, &[0; 64], carry);
    }
}
