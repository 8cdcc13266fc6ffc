// The input stack: frames, each four words that say what it is, some bytes, and the places where arguments among the bytes end.
ghost use Rattle.std.specs.Prelude.{◌≡◌, ◌+◌, ◌-◌, ◌*◌, ◌≤◌, ◌<◌, length};
ghost use Rattle.std.proofs.Math.Seq.{paste};
ghost use Rattle.input_stack.specs.Frames.Words.{frame_words, item_words, what_in};
ghost use Rattle.input_stack.specs.Stack.Frames.{no_frames, entry_at, entered, StackInvariant, Topped, PushedTo, LoadedTo, top_entry, top_bytes, top_ends, popped, placed_at, is_called, called_below};

use super::frames::What;
use rules::Name;
use rules::arrays::{
    ARGUMENT_COUNT, ArgumentEnds, ITEM_HEAD, ITEM_WORDS, LINE_SIZE, LineBytes, StackBytes,
    StackEnds,
};
use texts::definitions::copy_in;

// What a frame is, and how many bytes it has.
#[derive(Clone, Copy, Debug, PartialEq, Eq)]
pub struct Entry {
    pub what: What,
    pub size: u16,
}

// How many frames lie on the stack, the last on top: at most 16 items, and one that is held for a moment on top of them.
#[derive(Clone, Copy, Debug, PartialEq, Eq)]
pub struct Stack {
    pub depth: usize,
}

// A stack with nothing on it.
pub fn empty() -> Stack
    ensures { result ≡ no_frames }
{
    Stack { depth: 0 }
}

// What a frame is, and how many bytes it has, in its first four words.
fn put_entry(all: &mut StackEnds, at: usize, what: What, size: u16)
    requires { at + 4 ≤ 221 }
    ensures { (all.new ≡ entered all.old at (item_words what) size) × (what_in (item_words what) ≡ what) }
{
    let words = super::frames::words_of(what);
    all[at] = words.first;
    all[at + 1] = words.second;
    all[at + 2] = words.third;
    all[at + 3] = size;
}

// A frame goes on top of the stack; the callers count the items.
pub fn push(
    stack: Stack,
    arena: &mut StackBytes,
    ends: &mut StackEnds,
    what: What,
    bytes: &[u8],
    given: &ArgumentEnds,
) -> Stack
    requires { StackInvariant stack arena.old ends.old × (stack.depth < 17) × (length bytes.now ≤ 512) × (length given.now ≡ 9) }
    ensures { PushedTo stack arena.old ends.old what bytes.now given.now result arena.new ends.new }
{
    let depth = stack.depth;
    copy_in(&mut *arena, depth * LINE_SIZE, bytes);
    let at = depth * ITEM_WORDS;
    put_entry(&mut *ends, at, what, bytes.len() as u16);
    copy_in(&mut *ends, at + ITEM_HEAD, given);
    Stack { depth: depth + 1 }
}

// The entry of a frame.
#[tactic(auto, unfolding(crate::specs::Stack::Frames::entry_at))]
pub fn entry_at(ends: &StackEnds, frame: usize) -> Entry
    requires { frame < 17 }
    ensures { result ≡ entry_at ends.now frame }
{
    let at = frame * ITEM_WORDS;
    Entry {
        what: super::frames::what_of(ends[at], ends[at + 1], ends[at + 2]),
        size: ends[at + 3],
    }
}

// The entry of the frame on top.
pub fn top(stack: Stack, ends: &StackEnds) -> Entry
    requires { (0 < stack.depth) × (stack.depth ≤ 17) }
    ensures { result ≡ top_entry stack ends.now }
{
    entry_at(ends, stack.depth - 1)
}

// The bytes of the frame on top, where they lie.
pub fn top_bytes<'a>(stack: Stack, arena: &'a [u8], ends: &StackEnds) -> &'a [u8]
    requires { Topped stack ends.now × (length arena.now ≡ 8704) }
    ensures { result.now ≡ top_bytes stack arena.now ends.now }
{
    let entry = top(stack, ends);
    let from = (stack.depth - 1) * LINE_SIZE;
    let to = from + usize::from(entry.size);
    &arena[from..to]
}

// The bytes of the frame on top are copied to the front of `out`; how many there are.
pub fn load(stack: Stack, arena: &StackBytes, ends: &StackEnds, out: &mut LineBytes) -> usize
    requires { Topped stack ends.now × (length arena.now ≡ 8704) × (length out.old ≡ 512) }
    ensures { LoadedTo stack arena.now ends.now result out.new }
{
    let bytes = top_bytes(stack, arena, ends);
    copy_in(&mut *out, 0, bytes);
    bytes.len()
}

// The places where the arguments of the frame on top end.
pub fn load_ends(stack: Stack, ends: &StackEnds, out: &mut ArgumentEnds)
    requires { (0 < stack.depth) × (stack.depth ≤ 17) × (length ends.now ≡ 221) × (length out.old ≡ 9) }
    ensures { out.new ≡ top_ends stack ends.now }
{
    let from = (stack.depth - 1) * ITEM_WORDS + ITEM_HEAD;
    copy_in(&mut *out, 0, &ends[from..from + ARGUMENT_COUNT]);
}

// The stack without the frame on top.
pub fn pop(stack: Stack) -> Stack
    requires { 0 < stack.depth }
    ensures { result ≡ popped stack }
{
    Stack {
        depth: stack.depth - 1,
    }
}

// Another place in the frame on top, if that is a text.
#[tactic(auto, unfolding(crate::specs::Stack::Frames::placed_at))]
pub fn set_place(stack: Stack, ends: &mut StackEnds, place: u16)
    requires { (0 < stack.depth) × (stack.depth ≤ 17) }
    ensures { ends.new ≡ placed_at stack ends.old place }
{
    let at = (stack.depth - 1) * ITEM_WORDS;
    if ends[at] % 256 == 0 {
        ends[at + 2] = place;
    }
}

// Whether an item is the text of a name.
fn is_called(what: What, name: Name) -> bool
    ensures { result ≡ is_called name what }
{
    matches!(what, What::Reading(other, _, _) if name == other)
}

// Whether a text of this name lies on the stack.
pub fn is_on_stack(stack: Stack, ends: &StackEnds, name: Name) -> bool
    requires { stack.depth ≤ 17 }
    ensures { result ≡ called_below name ends.now stack.depth }
{
    (0..stack.depth).any(|i| is_called(entry_at(ends, i).what, name))
}
