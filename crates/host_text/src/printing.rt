// Writes texts to a sink.
ghost use Rattle.std.specs.Prelude.{◌≡◌, ◌≤◌, ◌++◌, ℕ, take, OnOk, OnErr, IsErr};
ghost use Rattle.std.specs.List.{flat_map};
ghost use Rattle.fault_counts.specs.Counts.{Rose};
ghost use Rattle.outside.specs.Sink.{with_bytes};

use outside::{Sink, SinkFailed};

/// Writes all of the text, in as many pieces as the sink takes. Where the sink fails, a front of the text is written.
pub fn print<K: Sink>(out: &mut K, text: &[u8]) -> Result<(), SinkFailed>
    ensures whole { OnOk result (K.written out.new ≡ with_bytes (K.written out.old) text.now) }
    ensures front { OnErr result ((n : ℕ) × (K.written out.new ≡ with_bytes (K.written out.old) (take n text.now))) }
    ensures failed { IsErr result → Rose (K.faults out.old) (K.faults out.new) }
    ensures never_falls { K.faults out.old ≤ K.faults out.new }
{
    let mut sent = 0;
    while sent < text.len() {
        sent += out.write(&text[sent..])?;
    }
    Ok(())
}

/// Writes these texts, one behind the other.
pub fn print_all<K: Sink>(out: &mut K, texts: &[&[u8]]) -> Result<(), SinkFailed>
    ensures whole { OnOk result (K.written out.new ≡ with_bytes (K.written out.old) (flat_map (λ text. text.now) texts.now)) }
    ensures front { OnErr result ((n : ℕ) × (K.written out.new ≡ with_bytes (K.written out.old) (take n (flat_map (λ text. text.now) texts.now)))) }
    ensures failed { IsErr result → Rose (K.faults out.old) (K.faults out.new) }
    ensures never_falls { K.faults out.old ≤ K.faults out.new }
{
    for text in texts {
        print(out, text)?;
    }
    Ok(())
}

/// Writes five texts, one behind the other.
pub fn print_five<'a, K: Sink>(
    out: &mut K,
    first: &'a [u8],
    second: &'a [u8],
    third: &'a [u8],
    fourth: &'a [u8],
    fifth: &'a [u8],
) -> Result<(), SinkFailed>
    ensures whole { OnOk result (K.written out.new ≡ with_bytes (K.written out.old) (first.now ++ second.now ++ third.now ++ fourth.now ++ fifth.now)) }
    ensures front { OnErr result ((n : ℕ) × (K.written out.new ≡ with_bytes (K.written out.old) (take n (first.now ++ second.now ++ third.now ++ fourth.now ++ fifth.now)))) }
    ensures failed { IsErr result → Rose (K.faults out.old) (K.faults out.new) }
{
    print_all(out, &[first, second, third, fourth, fifth])
}
