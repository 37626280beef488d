// Byte strings in lent buffers: copied, filled, compared and tested; and whether two chains are the same. What differs ends no loop early: of a tag every
// byte is compared, whatever was found before it, and the compiler compares many at once.
#![tactic(auto)]

ghost use Rattle.std.specs.Prelude.{◌≡◌, ◌+◌, ◌≤◌, length, drop, replicate, true, ◌&&◌, ◌==◌};
ghost use Rattle.std.specs.List.{fold, zip};
ghost use Rattle.std.specs.Cmp.Lexicographic.{pointwise};
ghost use Rattle.std.proofs.lemmas.List.Edits.{sets};
ghost use Rattle.lists.specs.Equal.{equal};
ghost use Rattle.lists.specs.Lists.{all_zero};

// Writes one byte into every place of the output.
pub fn fill(output: &mut [u8], x: u8)
    ensures { output.new ≡ replicate (length output.old) x }
{
    output.fill(x);
}

// Writes the part into the output from a place on, and returns the place after it.
pub fn put(output: &mut [u8], from: usize, part: &[u8]) -> usize
    requires { from + length part.now ≤ length output.old }
    ensures { (result ≡ from + length part.now) × (output.new ≡ sets output.old from part.now) }
{
    // With copy_from_slice the archive for C would want memmove beside memcpy and memset.
    for (i, x) in part.iter().enumerate() {
        let place = from + i;
        output[place] = *x;
    }
    from + part.len()
}

// Whether each byte from a place on is 0.
pub fn zero_from(s: &[u8], at: usize) -> bool
    ensures { result ≡ all_zero (drop at s.now) }
{
    // The compiler tests many bytes of a part at once, but one at a time behind s.iter().skip(at).
    let from = at.min(s.len());
    each_zero(&s[from..])
}

// A fold, and not all(): it has no early end.
fn each_zero(s: &[u8]) -> bool
    ensures { result ≡ fold (λ zero x. zero && (x == 0)) true s.now }
{
    s.iter().fold(true, |zero, x| zero & (*x == 0))
}

pub fn equal_bytes(a: &[u8], b: &[u8]) -> bool
    ensures { result ≡ equal a.now b.now }
{
    equal(a, b)
}

pub fn equal_chains(a: [u64; 16], b: [u64; 16]) -> bool
    ensures { result ≡ equal a b }
{
    equal(&a, &b)
}

fn equal<T: PartialEq>(a: &[T], b: &[T]) -> bool
    ensures { result ≡ pointwise T.eq a.now b.now }
{
    if a.len() != b.len() {
        return false;
    }
    each_same(a, b)
}

// A fold, and neither all() nor a == b: each element is compared, whatever was found before it.
fn each_same<T: PartialEq>(a: &[T], b: &[T]) -> bool
    ensures { result ≡ fold (λ same p. same && T.eq p.0 p.1) true (zip a.now b.now) }
{
    a.iter().zip(b).fold(true, |same, (x, y)| same & (x == y))
}
