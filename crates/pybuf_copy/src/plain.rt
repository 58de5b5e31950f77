//! Copies of numbers, truth values and characters: a copy is the value itself, and many are copied as one block.
ghost use Rattle.std.specs.Prelude.{◌≡◌, ◌+◌, ◌≤◌, length, OnOk, OnErr, vec_len, vec_capacity};
ghost use Rattle.std.specs.List.{AllZip, AppendsClones};

use crate::memory::Made;
use crate::twin::{Exact, Twin};
use std::alloc::Global;

/// `Twin::append_copies` where a copy is the value itself.
fn append_block<T: Copy>(items: &[T], list: &mut Vec<T>) -> Made<()>
    ensures ok { OnOk result (AppendsClones (λ old twin. twin ≡ old) list.old.items list.new.items items.now) }
    ensures err { OnErr result (list.new.items ≡ list.old.items) }
    ensures room { vec_capacity list.old ≤ vec_capacity list.new }
{
    list.extend_from_slice(items)?;
    Ok(())
}

/// `Twin::write_copies` where a copy is the value itself.
fn write_block<T: Copy>(items: &[T], places: &mut [T])
    requires { length items.now ≡ length places.old }
    ensures { AllZip (λ old twin. twin ≡ old) items.now places.new }
{
    places.copy_from_slice(items);
}

impl Twin for u8 {
    fn copy(&self, _alloc: Global) -> Made<u8> {
        Ok(*self)
    }

    fn append_copies(_alloc: Global, items: &[u8], list: &mut Vec<u8>) -> Made<()> {
        append_block(items, list)
    }

    fn write_copies(_alloc: Global, items: &[u8], places: &mut [u8]) -> Made<()> {
        write_block(items, places);
        Ok(())
    }
}

impl Exact for u8 {
    ghost exact = { λ x y e. e };
}

impl Twin for u16 {
    fn copy(&self, _alloc: Global) -> Made<u16> {
        Ok(*self)
    }

    fn append_copies(_alloc: Global, items: &[u16], list: &mut Vec<u16>) -> Made<()> {
        append_block(items, list)
    }

    fn write_copies(_alloc: Global, items: &[u16], places: &mut [u16]) -> Made<()> {
        write_block(items, places);
        Ok(())
    }
}

impl Exact for u16 {
    ghost exact = { λ x y e. e };
}

impl Twin for u32 {
    fn copy(&self, _alloc: Global) -> Made<u32> {
        Ok(*self)
    }

    fn append_copies(_alloc: Global, items: &[u32], list: &mut Vec<u32>) -> Made<()> {
        append_block(items, list)
    }

    fn write_copies(_alloc: Global, items: &[u32], places: &mut [u32]) -> Made<()> {
        write_block(items, places);
        Ok(())
    }
}

impl Exact for u32 {
    ghost exact = { λ x y e. e };
}

impl Twin for u64 {
    fn copy(&self, _alloc: Global) -> Made<u64> {
        Ok(*self)
    }

    fn append_copies(_alloc: Global, items: &[u64], list: &mut Vec<u64>) -> Made<()> {
        append_block(items, list)
    }

    fn write_copies(_alloc: Global, items: &[u64], places: &mut [u64]) -> Made<()> {
        write_block(items, places);
        Ok(())
    }
}

impl Exact for u64 {
    ghost exact = { λ x y e. e };
}

impl Twin for u128 {
    fn copy(&self, _alloc: Global) -> Made<u128> {
        Ok(*self)
    }

    fn append_copies(_alloc: Global, items: &[u128], list: &mut Vec<u128>) -> Made<()> {
        append_block(items, list)
    }

    fn write_copies(_alloc: Global, items: &[u128], places: &mut [u128]) -> Made<()> {
        write_block(items, places);
        Ok(())
    }
}

impl Exact for u128 {
    ghost exact = { λ x y e. e };
}

impl Twin for usize {
    fn copy(&self, _alloc: Global) -> Made<usize> {
        Ok(*self)
    }

    fn append_copies(_alloc: Global, items: &[usize], list: &mut Vec<usize>) -> Made<()> {
        append_block(items, list)
    }

    fn write_copies(_alloc: Global, items: &[usize], places: &mut [usize]) -> Made<()> {
        write_block(items, places);
        Ok(())
    }
}

impl Exact for usize {
    ghost exact = { λ x y e. e };
}

impl Twin for i8 {
    fn copy(&self, _alloc: Global) -> Made<i8> {
        Ok(*self)
    }

    fn append_copies(_alloc: Global, items: &[i8], list: &mut Vec<i8>) -> Made<()> {
        append_block(items, list)
    }

    fn write_copies(_alloc: Global, items: &[i8], places: &mut [i8]) -> Made<()> {
        write_block(items, places);
        Ok(())
    }
}

impl Exact for i8 {
    ghost exact = { λ x y e. e };
}

impl Twin for i16 {
    fn copy(&self, _alloc: Global) -> Made<i16> {
        Ok(*self)
    }

    fn append_copies(_alloc: Global, items: &[i16], list: &mut Vec<i16>) -> Made<()> {
        append_block(items, list)
    }

    fn write_copies(_alloc: Global, items: &[i16], places: &mut [i16]) -> Made<()> {
        write_block(items, places);
        Ok(())
    }
}

impl Exact for i16 {
    ghost exact = { λ x y e. e };
}

impl Twin for i32 {
    fn copy(&self, _alloc: Global) -> Made<i32> {
        Ok(*self)
    }

    fn append_copies(_alloc: Global, items: &[i32], list: &mut Vec<i32>) -> Made<()> {
        append_block(items, list)
    }

    fn write_copies(_alloc: Global, items: &[i32], places: &mut [i32]) -> Made<()> {
        write_block(items, places);
        Ok(())
    }
}

impl Exact for i32 {
    ghost exact = { λ x y e. e };
}

impl Twin for i64 {
    fn copy(&self, _alloc: Global) -> Made<i64> {
        Ok(*self)
    }

    fn append_copies(_alloc: Global, items: &[i64], list: &mut Vec<i64>) -> Made<()> {
        append_block(items, list)
    }

    fn write_copies(_alloc: Global, items: &[i64], places: &mut [i64]) -> Made<()> {
        write_block(items, places);
        Ok(())
    }
}

impl Exact for i64 {
    ghost exact = { λ x y e. e };
}

impl Twin for i128 {
    fn copy(&self, _alloc: Global) -> Made<i128> {
        Ok(*self)
    }

    fn append_copies(_alloc: Global, items: &[i128], list: &mut Vec<i128>) -> Made<()> {
        append_block(items, list)
    }

    fn write_copies(_alloc: Global, items: &[i128], places: &mut [i128]) -> Made<()> {
        write_block(items, places);
        Ok(())
    }
}

impl Exact for i128 {
    ghost exact = { λ x y e. e };
}

impl Twin for isize {
    fn copy(&self, _alloc: Global) -> Made<isize> {
        Ok(*self)
    }

    fn append_copies(_alloc: Global, items: &[isize], list: &mut Vec<isize>) -> Made<()> {
        append_block(items, list)
    }

    fn write_copies(_alloc: Global, items: &[isize], places: &mut [isize]) -> Made<()> {
        write_block(items, places);
        Ok(())
    }
}

impl Exact for isize {
    ghost exact = { λ x y e. e };
}

impl Twin for bool {
    fn copy(&self, _alloc: Global) -> Made<bool> {
        Ok(*self)
    }

    fn append_copies(_alloc: Global, items: &[bool], list: &mut Vec<bool>) -> Made<()> {
        append_block(items, list)
    }

    fn write_copies(_alloc: Global, items: &[bool], places: &mut [bool]) -> Made<()> {
        write_block(items, places);
        Ok(())
    }
}

impl Exact for bool {
    ghost exact = { λ x y e. e };
}

impl Twin for char {
    fn copy(&self, _alloc: Global) -> Made<char> {
        Ok(*self)
    }

    fn append_copies(_alloc: Global, items: &[char], list: &mut Vec<char>) -> Made<()> {
        append_block(items, list)
    }

    fn write_copies(_alloc: Global, items: &[char], places: &mut [char]) -> Made<()> {
        write_block(items, places);
        Ok(())
    }
}

impl Exact for char {
    ghost exact = { λ x y e. e };
}
