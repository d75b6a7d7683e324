//! The code of the methods (JVMS 6.5).

ghost use Rattle.std.specs.Prelude.{◌≡◌, ◌<◌, IfOk};
ghost use Rattle.dj_make.specs.Made.{adding_code, choosing_code, counting_code};

use std::alloc::{AllocError, Global};

const ICONST_0: u8 = 3;

const BIPUSH: u8 = 16;

const ILOAD_0: u8 = 26;

const ILOAD_1: u8 = 27;

const IADD: u8 = 96;

const IMUL: u8 = 104;

const IINC: u8 = 132;

const IF_ICMPGE: u8 = 162;

const GOTO: u8 = 167;

const TABLESWITCH: u8 = 170;

const IRETURN: u8 = 172;

/// Adds some constants to the first parameter, and multiplies the sum by the second.
pub(crate) fn adding_code(alloc: Global, k: u32) -> Result<Vec<u8>, AllocError>
    requires few { k < 1000 }
    ensures code { IfOk result (λ code. code.items ≡ adding_code k) }
{
    let mut code = Vec::new(alloc);
    code.push(ILOAD_0)?;
    for j in 0..k % 50 + 1 {
        let constant = (7 * j + k) % 100;
        code.extend_from_slice(&[BIPUSH, constant as u8, IADD])?;
    }
    code.extend_from_slice(&[ILOAD_1, IMUL, IRETURN])?;
    Ok(code)
}

/// Counts the first parameter up until it isn't less than the second.
pub(crate) fn counting_code(alloc: Global, k: u32) -> Result<Vec<u8>, AllocError>
    ensures code { IfOk result (λ code. code.items ≡ counting_code k) }
{
    let step = k % 7 + 1;
    Vec::from_slice(
        alloc,
        &[
            ILOAD_0, ILOAD_1, IF_ICMPGE, 0, 9, IINC, 0, step as u8, GOTO, 0xff, 0xf8, ILOAD_0,
            IRETURN,
        ],
    )
}

/// Chooses by the first parameter between the second, a constant and 0.
pub(crate) fn choosing_code(alloc: Global, k: u32) -> Result<Vec<u8>, AllocError>
    ensures code { IfOk result (λ code. code.items ≡ choosing_code k) }
{
    let constant = k % 100;
    Vec::from_slice(
        alloc,
        &[
            ILOAD_0,
            TABLESWITCH,
            0,
            0,
            0,
            0,
            0,
            32,
            0,
            0,
            0,
            0,
            0,
            0,
            0,
            2,
            0,
            0,
            0,
            27,
            0,
            0,
            0,
            29,
            0,
            0,
            0,
            27,
            ILOAD_1,
            IRETURN,
            BIPUSH,
            constant as u8,
            IRETURN,
            ICONST_0,
            IRETURN,
        ],
    )
}
