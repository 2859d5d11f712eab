//! Numbers in codes.

ghost use Rattle.std.specs.Prelude.{◌≡◌, ◌∷◌, ◌++◌, [], OnOk};
ghost use Rattle.link_faults.specs.Codes.{bit, with_text};

use il_base::NoMemory;

/// The number of a flag.
pub fn bit(flag: bool) -> u32
    ensures { result ≡ bit flag }
{
    if flag { 1 } else { 0 }
}

/// Adds a number for a kind, and one more.
pub fn add_pair(code: &mut Vec<u32>, kind: u32, number: u32) -> Result<(), NoMemory>
    ensures { OnOk result (code.new.items ≡ code.old.items ++ kind ∷ number ∷ []) }
{
    code.push(kind)?;
    code.push(number)?;
    Ok(())
}

/// Adds a number for a kind, that of a flag, and one more.
pub fn add_flagged(code: &mut Vec<u32>, kind: u32, flag: bool, number: u32) -> Result<(), NoMemory>
    ensures { OnOk result (code.new.items ≡ code.old.items ++ kind ∷ bit flag ∷ number ∷ []) }
{
    code.push(kind)?;
    code.push(bit(flag))?;
    code.push(number)?;
    Ok(())
}

/// Adds a count.
pub fn add_count(code: &mut Vec<u32>, count: usize) -> Result<(), NoMemory>
    ensures { OnOk result (code.new.items ≡ code.old.items ++ count ∷ []) }
{
    let Ok(count) = u32::try_from(count) else {
        return Err(NoMemory);
    };
    code.push(count)?;
    Ok(())
}

/// Adds a text with its length before it.
pub fn add_text(code: &mut Vec<u32>, text: &[u8]) -> Result<(), NoMemory>
    ensures { OnOk result (code.new.items ≡ code.old.items ++ with_text text.now []) }
{
    add_count(code, text.len())?;
    for byte in text {
        code.push(u32::from(*byte))?;
    }
    Ok(())
}
