// Bytes written over a slice, and zeros, each total.
ghost use Rattle.std.specs.Prelude.{◌≡◌, length, replicate};
ghost use Rattle.std.proofs.lemmas.List.Edits.{sets};

// The bytes written over a slice from a place on, as far as it reaches.
pub fn write(target: &mut [u8], bytes: &[u8], at: usize)
    ensures { target.new ≡ sets target.old at bytes.now }
{
    let place = at.min(target.len());
    let count = bytes.len().min(target.len() - place);
    for i in 0..count {
        target[place + i] = bytes[i];
    }
}

// Zeros over a whole slice.
pub fn clear(target: &mut [u8])
    ensures { target.new ≡ replicate (length target.old) 0 }
{
    target.fill(0);
}
