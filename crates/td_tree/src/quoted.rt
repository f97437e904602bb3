//! Texts in quotes.
ghost use Rattle.std.specs.Prelude.{◌≡◌, ◌++◌, OnErr, OnOk};
ghost use Rattle.std.specs.String.{string_bytes};
ghost use Rattle.td_tree.specs.code.Fronts.{PutsFront};
ghost use Rattle.td_tree.specs.model.TextTokens.{with_quotes_doubled, text_in_quotes};
ghost use Rattle.td_tree.specs.code.Written.{quotes_if};

use std::alloc::AllocError;

/// Puts what stands before a piece: two quotes, where another piece stands before it.
fn put_quotes(out: &mut String, later: bool) -> Result<(), AllocError>
    ensures ok { OnOk result (string_bytes out.new ≡ string_bytes out.old ++ quotes_if later) }
    ensures err { OnErr result (string_bytes out.new ≡ string_bytes out.old) }
{
    if later {
        out.push_str("''")?;
    }
    Ok(())
}

/// Puts the text with each quote doubled: its pieces between quotes, with two quotes between.
fn put_doubled(out: &mut String, said: &str) -> Result<(), AllocError>
    ensures ok { OnOk result (string_bytes out.new ≡ string_bytes out.old ++ with_quotes_doubled
        said.now) }
    ensures err { OnErr result
        (PutsFront (string_bytes out.old) (string_bytes out.new) (with_quotes_doubled said.now)) }
{
    let mut later = false;
    for piece in said.split('\'') {
        put_quotes(out, later)?;
        out.push_str(piece)?;
        later = true;
    }
    Ok(())
}

/// Puts the text in quotes behind what stands there, each quote in it doubled.
pub fn put_quoted(out: &mut String, said: &str) -> Result<(), AllocError>
    ensures ok { OnOk result (string_bytes out.new ≡ string_bytes out.old ++ text_in_quotes
        said.now) }
    ensures err { OnErr result
        (PutsFront (string_bytes out.old) (string_bytes out.new) (text_in_quotes said.now)) }
{
    out.push_str("'")?;
    put_doubled(out, said)?;
    out.push_str("'")
}
