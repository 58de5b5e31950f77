//! Laws of the definitions that the contracts cite. Each stands on a function with an empty body.
ghost use Rattle.std.specs.Prelude.{ℕ, List};
ghost use Rattle.pybuf_search.specs.Laws.{MatchesAreFromLeft, MatchesAreFromRight, EmptyStandsEverywhere, SplitJoinsBack, RsplitJoinsBack, PartitionIsWhole, RpartitionIsWhole, PrefixIsRemoved, SuffixIsRemoved};

/// Each match from the left is the least place at which the needle stands, at or past the end of the
/// match before it; an empty needle stands at each place.
///
/// Example: in `b"aaa"` the needle `b"aa"` has one match from the left, at 0.
pub fn matches_are_from_left()
    ensures { MatchesAreFromLeft }
{}

/// Each match from the right is the greatest place at which the needle stands, so that it ends at or
/// before the match listed before it; an empty needle stands at each place.
///
/// Example: in `b"aaa"` the needle `b"aa"` has one match from the right, at 1.
pub fn matches_are_from_right()
    ensures { MatchesAreFromRight }
{}

/// An empty needle stands at each place, from 0 to the length.
///
/// Example: in `b"ab"` the empty needle stands at 0, 1 and 2.
pub fn empty_stands_everywhere()
    ensures { EmptyStandsEverywhere }
{}

/// What was split at a separator, joined by it, is the bytes, whatever the greatest number of cuts.
///
/// Example: `b"a,b,c"` split at `b","` once is `b"a"` and `b"b,c"`, and joined by `b","` they are `b"a,b,c"`.
pub fn split_joins_back()
    ensures { SplitJoinsBack }
{}

/// What was split at a separator from the right, joined by it, is the bytes, whatever the greatest
/// number of cuts.
///
/// Example: `b"a,b,c"` split at `b","` once from the right is `b"a,b"` and `b"c"`, and joined they are `b"a,b,c"`.
pub fn rsplit_joins_back()
    ensures { RsplitJoinsBack }
{}

/// The three parts of a partition, put together, are the bytes.
///
/// Example: `b"a=b=c"` at `b"="` is `b"a"`, `b"="` and `b"b=c"`, which together are `b"a=b=c"`.
pub fn partition_is_whole()
    ensures { PartitionIsWhole }
{}

/// The three parts of a partition at the last match, put together, are the bytes.
///
/// Example: `b"a=b=c"` at `b"="` from the right is `b"a=b"`, `b"="` and `b"c"`, which together are `b"a=b=c"`.
pub fn rpartition_is_whole()
    ensures { RpartitionIsWhole }
{}

/// A prefix that the bytes begin with and what is left without it, put together, are the bytes; bytes that
/// don't begin with it stay as they are.
///
/// Example: `b"ab"` and `b"c"`, which is `b"abc"` without the prefix `b"ab"`, together are `b"abc"`.
pub fn prefixes_are_removed()
    ensures { (bytes prefix : List ℕ) → PrefixIsRemoved bytes prefix }
{}

/// What is left without a suffix that the bytes end with and that suffix, put together, are the bytes;
/// bytes that don't end with it stay as they are.
///
/// Example: `b"a"`, which is `b"abc"` without the suffix `b"bc"`, and `b"bc"` together are `b"abc"`.
pub fn suffixes_are_removed()
    ensures { (bytes suffix : List ℕ) → SuffixIsRemoved bytes suffix }
{}
