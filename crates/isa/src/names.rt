// What Appendix A says of each instruction: its opcode, its name and the operand that it takes.
ghost use Rattle.std.specs.Prelude.{◌≡◌};
ghost use Rattle.isa.specs.AppendixA.{appendix_a};
ghost use Rattle.isa.specs.Laws.{DecodesTo};

use crate::instructions::Instruction;
use crate::operands::Operand;

impl Instruction {
    // The instruction's opcode, from which it is decoded again.
    pub fn opcode(self) -> u8
        ensures value { result ≡ (appendix_a self).opcode }
        ensures back { DecodesTo result self }
    {
        self.coded()
    }

    // The opcode's column of Appendix A; the law above is shown once for all its rows, as the search did not find it at the rows
    // with a register.
    #[rattlefmt::skip]
    fn coded(self) -> u8
        ensures { result ≡ (appendix_a self).opcode }
    {
        match self {
            Self::Idl => 0x00, Self::Ldn(r) => 0x00 + u8::from(r.digit()), Self::Inc(r) => 0x10 + u8::from(r.digit()), Self::Dec(r) => 0x20 + u8::from(r.digit()),
            Self::Br => 0x30,  Self::Bq => 0x31,  Self::Bz => 0x32,  Self::Bdf => 0x33,
            Self::B1 => 0x34,  Self::B2 => 0x35,  Self::B3 => 0x36,  Self::B4 => 0x37,
            Self::Skp => 0x38, Self::Bnq => 0x39, Self::Bnz => 0x3a, Self::Bnf => 0x3b,
            Self::Bn1 => 0x3c, Self::Bn2 => 0x3d, Self::Bn3 => 0x3e, Self::Bn4 => 0x3f,
            Self::Lda(r) => 0x40 + u8::from(r.digit()), Self::Str(r) => 0x50 + u8::from(r.digit()), Self::Irx => 0x60, Self::Out(p) => 0x60 + p.number(),
            Self::Inp(p) => 0x68 + p.number(),
            Self::Ret => 0x70,  Self::Dis => 0x71,  Self::Ldxa => 0x72, Self::Stxd => 0x73,
            Self::Adc => 0x74,  Self::Sdb => 0x75,  Self::Shrc => 0x76, Self::Smb => 0x77,
            Self::Sav => 0x78,  Self::Mark => 0x79, Self::Req => 0x7a,  Self::Seq => 0x7b,
            Self::Adci => 0x7c, Self::Sdbi => 0x7d, Self::Shlc => 0x7e, Self::Smbi => 0x7f,
            Self::Glo(r) => 0x80 + u8::from(r.digit()), Self::Ghi(r) => 0x90 + u8::from(r.digit()), Self::Plo(r) => 0xa0 + u8::from(r.digit()), Self::Phi(r) => 0xb0 + u8::from(r.digit()),
            Self::Lbr => 0xc0,  Self::Lbq => 0xc1,  Self::Lbz => 0xc2,  Self::Lbdf => 0xc3,
            Self::Nop => 0xc4,  Self::Lsnq => 0xc5, Self::Lsnz => 0xc6, Self::Lsnf => 0xc7,
            Self::Lskp => 0xc8, Self::Lbnq => 0xc9, Self::Lbnz => 0xca, Self::Lbnf => 0xcb,
            Self::Lsie => 0xcc, Self::Lsq => 0xcd,  Self::Lsz => 0xce,  Self::Lsdf => 0xcf,
            Self::Sep(r) => 0xd0 + u8::from(r.digit()), Self::Sex(r) => 0xe0 + u8::from(r.digit()),
            Self::Ldx => 0xf0, Self::Or => 0xf1,  Self::And => 0xf2, Self::Xor => 0xf3,
            Self::Add => 0xf4, Self::Sd => 0xf5,  Self::Shr => 0xf6, Self::Sm => 0xf7,
            Self::Ldi => 0xf8, Self::Ori => 0xf9, Self::Ani => 0xfa, Self::Xri => 0xfb,
            Self::Adi => 0xfc, Self::Sdi => 0xfd, Self::Shl => 0xfe, Self::Smi => 0xff,
        }
    }

    // The instruction's name, in capitals.
    #[rattlefmt::skip]
    pub fn name(self) -> &'static str
        ensures { result.now ≡ (appendix_a self).name }
    {
        match self {
            Self::Idl => "IDL", Self::Ldn(_) => "LDN", Self::Inc(_) => "INC", Self::Dec(_) => "DEC",
            Self::Br => "BR",   Self::Bq => "BQ",   Self::Bz => "BZ",   Self::Bdf => "BDF",
            Self::B1 => "B1",   Self::B2 => "B2",   Self::B3 => "B3",   Self::B4 => "B4",
            Self::Skp => "SKP", Self::Bnq => "BNQ", Self::Bnz => "BNZ", Self::Bnf => "BNF",
            Self::Bn1 => "BN1", Self::Bn2 => "BN2", Self::Bn3 => "BN3", Self::Bn4 => "BN4",
            Self::Lda(_) => "LDA", Self::Str(_) => "STR", Self::Irx => "IRX", Self::Out(_) => "OUT",
            Self::Inp(_) => "INP",
            Self::Ret => "RET",   Self::Dis => "DIS",   Self::Ldxa => "LDXA", Self::Stxd => "STXD",
            Self::Adc => "ADC",   Self::Sdb => "SDB",   Self::Shrc => "SHRC", Self::Smb => "SMB",
            Self::Sav => "SAV",   Self::Mark => "MARK", Self::Req => "REQ",   Self::Seq => "SEQ",
            Self::Adci => "ADCI", Self::Sdbi => "SDBI", Self::Shlc => "SHLC", Self::Smbi => "SMBI",
            Self::Glo(_) => "GLO", Self::Ghi(_) => "GHI", Self::Plo(_) => "PLO", Self::Phi(_) => "PHI",
            Self::Lbr => "LBR",   Self::Lbq => "LBQ",   Self::Lbz => "LBZ",   Self::Lbdf => "LBDF",
            Self::Nop => "NOP",   Self::Lsnq => "LSNQ", Self::Lsnz => "LSNZ", Self::Lsnf => "LSNF",
            Self::Lskp => "LSKP", Self::Lbnq => "LBNQ", Self::Lbnz => "LBNZ", Self::Lbnf => "LBNF",
            Self::Lsie => "LSIE", Self::Lsq => "LSQ",   Self::Lsz => "LSZ",   Self::Lsdf => "LSDF",
            Self::Sep(_) => "SEP", Self::Sex(_) => "SEX",
            Self::Ldx => "LDX", Self::Or => "OR",   Self::And => "AND", Self::Xor => "XOR",
            Self::Add => "ADD", Self::Sd => "SD",   Self::Shr => "SHR", Self::Sm => "SM",
            Self::Ldi => "LDI", Self::Ori => "ORI", Self::Ani => "ANI", Self::Xri => "XRI",
            Self::Adi => "ADI", Self::Sdi => "SDI", Self::Shl => "SHL", Self::Smi => "SMI",
        }
    }

    // What stands behind the name, if anything does.
    #[rattlefmt::skip]
    pub fn operand(self) -> Option<Operand>
        ensures { result ≡ (appendix_a self).operand }
    {
        Some(match self {
            Self::Ldn(r) | Self::Inc(r) | Self::Dec(r) | Self::Lda(r) | Self::Str(r) | Self::Glo(r) |
            Self::Ghi(r) | Self::Plo(r) | Self::Phi(r) | Self::Sep(r) | Self::Sex(r) => Operand::Register(r),
            Self::Out(p) | Self::Inp(p) => Operand::Port(p),
            Self::Adci | Self::Sdbi | Self::Smbi | Self::Ldi | Self::Ori | Self::Ani | Self::Xri | Self::Adi |
            Self::Sdi | Self::Smi => Operand::Immediate,
            Self::Br | Self::Bq | Self::Bz | Self::Bdf | Self::B1 | Self::B2 | Self::B3 | Self::B4 | Self::Bnq |
            Self::Bnz | Self::Bnf | Self::Bn1 | Self::Bn2 | Self::Bn3 | Self::Bn4 => Operand::ShortTarget,
            Self::Lbr | Self::Lbq | Self::Lbz | Self::Lbdf | Self::Lbnq | Self::Lbnz | Self::Lbnf =>
            Operand::LongTarget,
            Self::Idl | Self::Skp | Self::Irx => return None,
            Self::Ret | Self::Dis | Self::Ldxa | Self::Stxd | Self::Adc | Self::Sdb | Self::Shrc | Self::Smb |
            Self::Sav | Self::Mark | Self::Req | Self::Seq | Self::Shlc => return None,
            Self::Nop | Self::Lsnq | Self::Lsnz | Self::Lsnf | Self::Lskp | Self::Lsie | Self::Lsq | Self::Lsz |
            Self::Lsdf => return None,
            Self::Ldx | Self::Or | Self::And | Self::Xor | Self::Add | Self::Sd | Self::Shr | Self::Sm |
            Self::Shl => return None,
        })
    }
}
