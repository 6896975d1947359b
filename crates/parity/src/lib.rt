#![tactic(auto)]

// The exclusive-or over rows of the store: of timestamps, of lengths, and of payloads. Where each row is as long as the sum, as most senders
// have it, payloads are taken ten at a pass, then four, then one; else one at a time, each at its own length.
ghost use Rattle.std.specs.Prelude.{◌≡◌, true, map, ℕ, ◌+◌, ◌*◌, ◌^◌, ◌≤◌, ◌<◌, length, get_or, take, replicate};
ghost use Rattle.std.specs.Int.Bits.{bit_xor};
ghost use Rattle.xor.specs.Xor.{zip_xor, xor_all, xor_parts, xor_payloads};
ghost use Rattle.parity.specs.Rows.{places, Rows, row_of, xor_lists};

// A number xored with the timestamps of some rows. A twin of `xor_lengths`: a trait of both would need the laws of `^` on a type parameter, and be longer than the two.
pub fn xor_timestamps(timestamps: &[u32], rows: &[usize], with: u32) -> u32
    requires { (i : ℕ) → i < length rows.now → get_or rows.now i 0 < length timestamps.now }
    ensures { result ≡ bit_xor with (xor_all (map (λ i. get_or timestamps.now i 0) rows.now)) }
{
    let mut sum = with;
    for &row in rows {
        sum ^= timestamps[row];
    }
    sum
}

// A number xored with the lengths of some rows.
pub fn xor_lengths(lengths: &[u16], rows: &[usize], with: u16) -> u16
    requires { (i : ℕ) → i < length rows.now → get_or rows.now i 0 < length lengths.now }
    ensures { result ≡ bit_xor with (xor_all (map (λ i. get_or lengths.now i 0) rows.now)) }
{
    let mut sum = with;
    for &row in rows {
        sum ^= lengths[row];
    }
    sum
}

// ---- rows as long as the sum

// Where the first N rows begin, each p bytes long.
fn places_of<const N: usize>(rows: &[usize], p: usize) -> [usize; N]
    requires { (N ≤ length rows.now) × ((i : ℕ) → i < N → get_or rows.now i 0 * p < 2 ^ 64) }
    ensures { result ≡ places p (take N rows.now) }
{
    let mut places = [0; N];
    for i in 0..N {
        places[i] = rows[i] * p;
    }
    places
}

// The payloads of as many of the rows as make up groups of N, xored into sum, a group at a pass; how many rows that were.
pub fn xor_groups<const N: usize>(sum: &mut [u8], media: &[u8], rows: &[usize]) -> usize
    requires { (0 < N) × Rows rows.now (length sum.old) (length media.now) }
    ensures { (result ≤ length rows.now) × (length rows.now < result + N) × (sum.new ≡ xor_parts media.now (places (length sum.old) (take result rows.now)) 0 (length sum.old) sum.old) }
{
    let p = sum.len();
    let groups = rows.len() / N;
    for group in 0..groups {
        let places = places_of(&rows[group * N..], p);
        xor::xor_parts::<N, true>(sum, media, places);
    }
    groups * N
}

// The payloads of the rows xored into sum.
pub fn xor_rows(sum: &mut [u8], media: &[u8], rows: &[usize])
    requires { Rows rows.now (length sum.old) (length media.now) }
    ensures { sum.new ≡ xor_parts media.now (places (length sum.old) rows.now) 0 (length sum.old) sum.old }
{
    let tens = xor_groups::<10>(sum, media, rows);
    let after = &rows[tens..];
    let fours = xor_groups::<4>(sum, media, after);
    xor_groups::<1>(sum, media, &after[fours..]);
}

// The payloads of the first N rows laid over sum.
fn lay_first<const N: usize>(sum: &mut [u8], media: &[u8], rows: &[usize])
    requires { (N ≤ length rows.now) × Rows rows.now (length sum.old) (length media.now) }
    ensures { sum.new ≡ xor_parts media.now (places (length sum.old) (take N rows.now)) 0 (length sum.old) (replicate (length sum.old) 0) }
{
    let places = places_of(rows, sum.len());
    xor::xor_parts::<N, false>(sum, media, places);
}

// The payloads of the first four of four to nine rows laid over sum, else zeros; how many rows that were. Ten are not laid in one pass: with no
// sum to read, the compiler has that loop keep places on the stack, and it takes longer than zeros and a pass that xors ten.
pub fn sum_first(sum: &mut [u8], media: &[u8], rows: &[usize]) -> usize
    requires { Rows rows.now (length sum.old) (length media.now) }
    ensures { (result ≤ length rows.now) × (sum.new ≡ xor_parts media.now (places (length sum.old) (take result rows.now)) 0 (length sum.old) (replicate (length sum.old) 0)) }
{
    if (4..10).contains(&rows.len()) {
        lay_first::<4>(sum, media, rows);
        return 4;
    }
    sum.fill(0);
    0
}

// The exclusive-or of the payloads of the rows, laid over sum: what stood there does not count.
pub fn sum_rows(sum: &mut [u8], media: &[u8], rows: &[usize])
    requires { Rows rows.now (length sum.old) (length media.now) }
    ensures { sum.new ≡ xor_parts media.now (places (length sum.old) rows.now) 0 (length sum.old) (replicate (length sum.old) 0) }
{
    let first = sum_first(sum, media, rows);
    xor_rows(sum, media, &rows[first..]);
}

// ---- rows at their own lengths

// Each row is p bytes long.
fn all_full(lengths: &[u16], rows: &[usize], p: usize) -> bool
    requires { (i : ℕ) → i < length rows.now → get_or rows.now i 0 < length lengths.now }
    ensures { result ≡ true → (i : ℕ) → i < length rows.now → get_or lengths.now (get_or rows.now i 0) 0 ≡ p }
{
    for &row in rows {
        if lengths[row] as usize != p {
            return false;
        }
    }
    true
}

// The payloads of the rows, p bytes apart, each at its own length but no more than sum has bytes, xored into sum: what stands past the length counts as zero.
fn xor_own(sum: &mut [u8], media: &[u8], lengths: &[u16], rows: &[usize], p: usize)
    requires { (length sum.old ≤ p) × Rows rows.now p (length media.now) × ((i : ℕ) → i < length rows.now → get_or rows.now i 0 < length lengths.now) }
    ensures { sum.new ≡ xor_lists (map (row_of p (length sum.old) media.now lengths.now) rows.now) 0 (length sum.old) sum.old }
{
    for &row in rows {
        let at = row * p;
        let size = (lengths[row] as usize).min(sum.len());
        xor::xor_into(sum, &media[at..at + size]);
    }
}

// The payloads of the rows, as far apart as sum has bytes, each at its own length, xored into sum.
pub fn add_rows(sum: &mut [u8], media: &[u8], lengths: &[u16], rows: &[usize])
    requires { Rows rows.now (length sum.old) (length media.now) × ((i : ℕ) → i < length rows.now → get_or rows.now i 0 < length lengths.now) }
    ensures { sum.new ≡ zip_xor sum.old (xor_payloads (length sum.old) (map (row_of (length sum.old) (length sum.old) media.now lengths.now) rows.now)) }
{
    let p = sum.len();
    if all_full(lengths, rows, p) {
        xor_rows(sum, media, rows);
    } else {
        xor_own(sum, media, lengths, rows, p);
    }
}

// The exclusive-or of the payloads of the rows, p bytes apart, each at its own length but no more than sum has bytes, laid over sum;
// `full` says that each is p bytes long, and sum has p.
pub fn lay_rows(sum: &mut [u8], media: &[u8], lengths: &[u16], rows: &[usize], p: usize, full: bool)
    requires { (length sum.old ≤ p) × Rows rows.now p (length media.now) × ((i : ℕ) → i < length rows.now → get_or rows.now i 0 < length lengths.now)
        × (full ≡ true → (length sum.old ≡ p) × ((i : ℕ) → i < length rows.now → get_or lengths.now (get_or rows.now i 0) 0 ≡ p)) }
    ensures { sum.new ≡ xor_payloads (length sum.old) (map (row_of p (length sum.old) media.now lengths.now) rows.now) }
{
    if full {
        sum_rows(sum, media, rows);
    } else {
        sum.fill(0);
        xor_own(sum, media, lengths, rows, p);
    }
}
