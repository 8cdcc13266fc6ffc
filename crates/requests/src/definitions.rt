// ds, de and rm: texts are defined, opened and removed by requests. They say whether anything was done.
ghost use Rattle.std.specs.Prelude.{◌≡◌, ◌≤◌, length};
ghost use Rattle.rules.specs.Bytes.{is_there};
ghost use Rattle.rules.specs.Names.{name_of, one};
ghost use Rattle.rules.specs.Texts.{text_of};
ghost use Rattle.rules.specs.Escapes.{escaped};
ghost use Rattle.rules.specs.Acts.{remove_text, open_text, defines};
ghost use Rattle.texts.specs.Table.Lent.{texts_in};
ghost use Rattle.requests.specs.Definitions.Texts.{removes, opens_text, defines_as, defines_by};
ghost use Rattle.requests.specs.Definitions.Lent.{ReadyToDefine, ChangesIn, OpensIn, DefinesIn};

use input_stack::stack::Stack;
use rules::arrays::{LineBytes, StackEnds};
use rules::{Name, Refusal};
use texts::columns::{Texts, TextsRef};

// Whether there is a text of a name.
fn is_text(texts: &Texts, name: Name) -> bool
    ensures { result ≡ is_there (text_of name (texts_in texts.now)) }
{
    let texts = TextsRef {
        store: &*texts.store,
        firsts: &*texts.firsts,
        seconds: &*texts.seconds,
        kinds: &*texts.kinds,
        lengths: &*texts.lengths,
        count: texts.count,
    };
    texts::table::look_up(&texts, name).is_some()
}

// rm of a name: "rm of a name with no user text does nothing".
fn remove_name(
    name: Name,
    stack: Stack,
    ends: &StackEnds,
    texts: &mut Texts,
) -> Result<bool, Refusal>
    requires { stack.depth ≤ 17 }
    ensures { ChangesIn texts.old stack ends.now (λ s. remove_text s name) result texts.new }
{
    if !is_text(&*texts, name) {
        return Ok(false);
    }
    if input_stack::stack::is_on_stack(stack, ends, name) {
        return Err(Refusal::TextInUse);
    }
    texts::removal::remove(texts, name);
    Ok(true)
}

// rm: whether it does anything. Not one function with `open`: what they call promises other things, and a closure with that
// promise is no plainer.
pub fn remove(
    name: &[u8],
    stack: Stack,
    ends: &StackEnds,
    texts: &mut Texts,
) -> Result<bool, Refusal>
    requires { stack.depth ≤ 17 }
    ensures { ChangesIn texts.old stack ends.now (removes name.now) result texts.new }
{
    let Some(name) = line_syntax::lines::name_of(name)? else {
        return Ok(false);
    };
    remove_name(name, stack, ends, texts)
}

// de of a name.
fn open_name(name: Name, stack: Stack, ends: &StackEnds, texts: &mut Texts) -> Result<bool, Refusal>
    requires { stack.depth ≤ 17 }
    ensures { OpensIn texts.old stack ends.now (one name) (λ s. open_text s name) result texts.new }
{
    if input_stack::stack::is_on_stack(stack, ends, name) {
        return Err(Refusal::TextInUse);
    }
    texts::definitions::open_macro(texts, name)?;
    Ok(true)
}

// de: the old text is gone, and an empty body is open behind the others.
pub fn open(name: &[u8], stack: Stack, ends: &StackEnds, texts: &mut Texts) -> Result<bool, Refusal>
    requires { stack.depth ≤ 17 }
    ensures { OpensIn texts.old stack ends.now (name_of name.now) (opens_text name.now) result texts.new }
{
    let Some(name) = line_syntax::lines::name_of(name)? else {
        return Ok(false);
    };
    open_name(name, stack, ends, texts)
}

// ds of a name and its text: "then 9, then 11 is tried". Apart from open_name for the reason beside `remove`.
fn define_text(
    name: Name,
    text: &[u8],
    stack: Stack,
    ends: &StackEnds,
    texts: &mut Texts,
) -> Result<bool, Refusal>
    requires { ReadyToDefine texts.old stack }
    ensures { ChangesIn texts.old stack ends.now (defines_as name text.now) result texts.new }
{
    if input_stack::stack::is_on_stack(stack, ends, name) {
        return Err(Refusal::TextInUse);
    }
    texts::definitions::define_string(texts, name, text)?;
    Ok(true)
}

// ds after an if: the text is written back with its escapes.
fn define_back(
    name: Name,
    text: &[u8],
    stack: Stack,
    ends: &StackEnds,
    texts: &mut Texts,
) -> Result<bool, Refusal>
    requires { ReadyToDefine texts.old stack × (length text.now ≤ 512) }
    ensures { ChangesIn texts.old stack ends.now (defines_as name (escaped text.now)) result texts.new }
{
    let mut out = [0u8; 1024];
    let end = line_syntax::lines::write_back(text, &mut out);
    define_text(name, &out[..end], stack, ends, texts)
}

// ds by the bytes of its name.
fn define_by(
    name: &[u8],
    text: &[u8],
    after_if: bool,
    stack: Stack,
    ends: &StackEnds,
    texts: &mut Texts,
) -> Result<bool, Refusal>
    requires { ReadyToDefine texts.old stack × (length text.now ≤ 512) }
    ensures { ChangesIn texts.old stack ends.now (defines_by after_if (name_of name.now) text.now) result texts.new }
{
    let Some(name) = line_syntax::lines::name_of(name)? else {
        return Ok(false);
    };
    if after_if {
        return define_back(name, text, stack, ends, texts);
    }
    define_text(name, text, stack, ends, texts)
}

// ds of what follows its name on an expanded line; `parts` takes the bytes of its name.
pub fn define(
    line: &[u8],
    after_if: bool,
    stack: Stack,
    ends: &StackEnds,
    texts: &mut Texts,
    parts: &mut LineBytes,
) -> Result<bool, Refusal>
    requires { ReadyToDefine texts.old stack × (length line.now ≤ 512) × (length parts.old ≡ 512) }
    ensures { DefinesIn texts.old stack ends.now (defines after_if line.now) result texts.new parts.new }
{
    let Some(cut) = scan::arguments::next_argument(line, 0, &mut *parts, 0) else {
        return Ok(false);
    };
    let at = line_syntax::lines::string_at(line, cut.at);
    define_by(
        &parts[..cut.written],
        &line[at..],
        after_if,
        stack,
        ends,
        texts,
    )
}
