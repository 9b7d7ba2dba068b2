//! The cases of `stream_cases` as functions that a program in any language can call. Each takes what its case takes, by
//! the C calling convention, and has its answer.
#![tactic(auto)]

ghost use Rattle.std.specs.Prelude.{◌≡◌, length};
ghost use Rattle.stream_cases.specs.Arguments.{CanRun};

use std::alloc::Global;
pub use stream_cases::REFUSED;

/// Case z.
#[unsafe(no_mangle)]
pub extern "C" fn streambench_case_z(alloc: Global, size: usize, src: &[u8], perm: &[u32]) -> u64
    ensures refused { ¬ CanRun size (length src.now) → result ≡ REFUSED }
    ensures nothing { CanRun size (length src.now) → size ≡ 0 → result ≡ 0 }
{
    stream_cases::case_z(alloc, size, src, perm)
}

/// Case a.
#[unsafe(no_mangle)]
pub extern "C" fn streambench_case_a(alloc: Global, size: usize, src: &[u8], perm: &[u32]) -> u64
    ensures refused { ¬ CanRun size (length src.now) → result ≡ REFUSED }
    ensures nothing { CanRun size (length src.now) → size ≡ 0 → result ≡ 0 }
{
    stream_cases::case_a(alloc, size, src, perm)
}

/// Case b.
#[unsafe(no_mangle)]
pub extern "C" fn streambench_case_b(alloc: Global, size: usize, src: &[u8], perm: &[u32]) -> u64
    ensures refused { ¬ CanRun size (length src.now) → result ≡ REFUSED }
    ensures nothing { CanRun size (length src.now) → size ≡ 0 → result ≡ 0 }
{
    stream_cases::case_b(alloc, size, src, perm)
}

/// Case c.
#[unsafe(no_mangle)]
pub extern "C" fn streambench_case_c(alloc: Global, size: usize, src: &[u8], perm: &[u32]) -> u64
    ensures refused { ¬ CanRun size (length src.now) → result ≡ REFUSED }
    ensures nothing { CanRun size (length src.now) → size ≡ 0 → result ≡ 0 }
{
    stream_cases::case_c(alloc, size, src, perm)
}

/// Case c2.
#[unsafe(no_mangle)]
pub extern "C" fn streambench_case_c2(alloc: Global, size: usize, src: &[u8], perm: &[u32]) -> u64
    ensures refused { ¬ CanRun size (length src.now) → result ≡ REFUSED }
    ensures nothing { CanRun size (length src.now) → size ≡ 0 → result ≡ 0 }
{
    stream_cases::case_c2(alloc, size, src, perm)
}

/// Case d.
#[unsafe(no_mangle)]
pub extern "C" fn streambench_case_d(alloc: Global, size: usize, src: &[u8], perm: &[u32]) -> u64
    ensures refused { ¬ CanRun size (length src.now) → result ≡ REFUSED }
    ensures nothing { CanRun size (length src.now) → size ≡ 0 → result ≡ 0 }
{
    stream_cases::case_d(alloc, size, src, perm)
}

/// Case e.
#[unsafe(no_mangle)]
pub extern "C" fn streambench_case_e(alloc: Global, size: usize, src: &[u8], perm: &[u32]) -> u64
    ensures refused { ¬ CanRun size (length src.now) → result ≡ REFUSED }
    ensures nothing { CanRun size (length src.now) → size ≡ 0 → result ≡ 0 }
{
    stream_cases::case_e(alloc, size, src, perm)
}

/// Case e2.
#[unsafe(no_mangle)]
pub extern "C" fn streambench_case_e2(alloc: Global, size: usize, src: &[u8], perm: &[u32]) -> u64
    ensures refused { ¬ CanRun size (length src.now) → result ≡ REFUSED }
    ensures nothing { CanRun size (length src.now) → size ≡ 0 → result ≡ 0 }
{
    stream_cases::case_e2(alloc, size, src, perm)
}

/// Case f.
#[unsafe(no_mangle)]
pub extern "C" fn streambench_case_f(alloc: Global, size: usize, src: &[u8], perm: &[u32]) -> u64
    ensures refused { ¬ CanRun size (length src.now) → result ≡ REFUSED }
    ensures nothing { CanRun size (length src.now) → size ≡ 0 → result ≡ 0 }
{
    stream_cases::case_f(alloc, size, src, perm)
}

/// Case g.
#[unsafe(no_mangle)]
pub extern "C" fn streambench_case_g(alloc: Global, size: usize, src: &[u8], perm: &[u32]) -> u64
    ensures { ¬ CanRun size (length src.now) → result ≡ REFUSED }
{
    stream_cases::case_g(alloc, size, src, perm)
}

/// Case h.
#[unsafe(no_mangle)]
pub extern "C" fn streambench_case_h(alloc: Global, size: usize, src: &[u8], perm: &[u32]) -> u64
    ensures refused { ¬ CanRun size (length src.now) → result ≡ REFUSED }
    ensures nothing { CanRun size (length src.now) → size ≡ 0 → result ≡ 0 }
{
    stream_cases::case_h(alloc, size, src, perm)
}

/// Case i.
#[unsafe(no_mangle)]
pub extern "C" fn streambench_case_i(alloc: Global, size: usize, src: &[u8], perm: &[u32]) -> u64
    ensures { ¬ CanRun size (length src.now) → result ≡ REFUSED }
{
    stream_cases::case_i(alloc, size, src, perm)
}

/// Case j.
#[unsafe(no_mangle)]
pub extern "C" fn streambench_case_j(alloc: Global, size: usize, src: &[u8], perm: &[u32]) -> u64
    ensures refused { ¬ CanRun size (length src.now) → result ≡ REFUSED }
    ensures nothing { CanRun size (length src.now) → size ≡ 0 → result ≡ 0 }
{
    stream_cases::case_j(alloc, size, src, perm)
}

/// Case k.
#[unsafe(no_mangle)]
pub extern "C" fn streambench_case_k(alloc: Global, size: usize, src: &[u8], perm: &[u32]) -> u64
    ensures refused { ¬ CanRun size (length src.now) → result ≡ REFUSED }
    ensures nothing { CanRun size (length src.now) → size ≡ 0 → result ≡ 0 }
{
    stream_cases::case_k(alloc, size, src, perm)
}

/// Case l.
#[unsafe(no_mangle)]
pub extern "C" fn streambench_case_l(alloc: Global, size: usize, src: &[u8], perm: &[u32]) -> u64
    ensures refused { ¬ CanRun size (length src.now) → result ≡ REFUSED }
    ensures nothing { CanRun size (length src.now) → size ≡ 0 → result ≡ 0 }
{
    stream_cases::case_l(alloc, size, src, perm)
}

/// Case m.
#[unsafe(no_mangle)]
pub extern "C" fn streambench_case_m(alloc: Global, size: usize, src: &[u8], perm: &[u32]) -> u64
    ensures refused { ¬ CanRun size (length src.now) → result ≡ REFUSED }
    ensures nothing { CanRun size (length src.now) → size ≡ 0 → result ≡ 0 }
{
    stream_cases::case_m(alloc, size, src, perm)
}
