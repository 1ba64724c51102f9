// Reading a tree, one word at a time.
ghost use Rattle.std.specs.Prelude.{◌≡◌, ◌≢◌, ℕ, ◌+◌, ◌*◌, ◌^◌, ◌<◌, ◌≤◌, List, length, slice_index};
ghost use Rattle.index_trees.specs.Reading.{IsNode, IsChild, IsLeaf, Leads, HasBucket, root, IsBucketOf};

use crate::image::{Bucket, EMPTY_LEAF, ROOT_WORD};
use word_fields::Words;

/// How many codes a node has.
fn count_at<W: Words>(words: &mut W, at: u64) -> u64
    requires { (ws : List ℕ) → W.may_be words.old ws → IsNode ws at }
    ensures some { (ws : List ℕ) × W.may_be words.new ws }
    ensures narrows { (ws : List ℕ) → W.may_be words.new ws → W.may_be words.old ws }
    ensures gives { (ws : List ℕ) → W.may_be words.new ws → slice_index ws at ≡ result }
    ensures room { at + 2 + 2 * result < 2 ^ 63 }
{
    words.word(at)
}

/// The child of a code, by halving.
fn child_of<W: Words>(words: &mut W, at: u64, code: u64) -> u64
    requires { (ws : List ℕ) → W.may_be words.old ws → IsNode ws at }
    ensures some { (ws : List ℕ) × W.may_be words.new ws }
    ensures narrows { (ws : List ℕ) → W.may_be words.new ws → W.may_be words.old ws }
    ensures child { (ws : List ℕ) → W.may_be words.new ws → IsChild ws at code result }
{
    let count = count_at(words, at);
    let mut low = 0;
    let mut high = count;
    while low < high {
        let middle = low + (high - low) / 2;
        let found = words.word(at + 2 + 2 * middle);
        if found == code {
            return words.word(at + 3 + 2 * middle);
        }
        if found < code {
            low = middle + 1;
        } else {
            high = middle;
        }
    }
    words.word(at + 1)
}

/// The names of a leaf.
fn leaf_at<W: Words>(words: &mut W, at: u64) -> Bucket
    requires { (ws : List ℕ) → W.may_be words.old ws → IsLeaf ws at }
    ensures some { (ws : List ℕ) × W.may_be words.new ws }
    ensures narrows { (ws : List ℕ) → W.may_be words.new ws → W.may_be words.old ws }
    ensures leaf { (ws : List ℕ) → W.may_be words.new ws → (result.at ≡ at + 1) × (result.len ≡ slice_index ws at) }
{
    let len = words.word(at);
    Bucket { at: at + 1, len }
}

/// The bucket of these codes, one for each position of the tree's pattern, in every list that the words may be. It takes no
/// memory.
pub fn probe<W: Words>(words: &mut W, codes: &[u64]) -> Bucket
    requires { (ws : List ℕ) → W.may_be words.old ws → HasBucket ws codes.now }
    ensures some { (ws : List ℕ) × W.may_be words.new ws }
    ensures narrows { (ws : List ℕ) → W.may_be words.new ws → W.may_be words.old ws }
    ensures bucket { (ws : List ℕ) → W.may_be words.new ws → Leads ws (root ws) codes.now result }
{
    let mut at = words.word(ROOT_WORD as u64);
    for code in codes {
        if at == EMPTY_LEAF {
            return leaf_at(words, at);
        }
        at = child_of(words, at, *code);
    }
    leaf_at(words, at)
}

/// The name at k of a bucket, counted from 0, in every list that the words may be. It takes no memory.
pub fn bucket_word<W: Words>(words: &mut W, bucket: &Bucket, k: u64) -> u64
    requires some { (ws : List ℕ) × W.may_be words.old ws }
    requires bucket { (ws : List ℕ) → W.may_be words.old ws → IsBucketOf ws bucket.now }
    requires below { k < bucket.now.len }
    ensures some { (ws : List ℕ) × W.may_be words.new ws }
    ensures narrows { (ws : List ℕ) → W.may_be words.new ws → W.may_be words.old ws }
    ensures name { (ws : List ℕ) → W.may_be words.new ws → slice_index ws (bucket.now.at + k) ≡ result }
{
    words.word(bucket.at + k)
}
