// The instruction set of 003: its forty forms, their rows, and what is told of them. `specs/` says what
// decoding, encoding and classifying are; nothing here runs.
#![tactic(auto)]

// A decoded instruction: a case for each row of 003's instruction table, in its order.
// d is Rd, a is Ra, b is Rb, f the function; imm is Imm8 and addr Addr8.
#[derive(Clone, Copy)]
pub enum Instr {
    // ALU* Rd, Ra, Rb: d, a, f, b
    Alu(u8, u8, u8, u8),
    // add Rd, Ra, Imm8: d, a, imm
    AddImm(u8, u8, u8),
    // ALU* NONE, Ra, Rb: a, f, b
    AluNone(u8, u8, u8),
    // cmp Ra, Imm8: a, imm
    CmpImm(u8, u8),
    // mask Ra, Imm8: a, imm
    MaskImm(u8, u8),
    // mask IN, Imm8: imm
    MaskIn(u8),
    // mov Rd, Imm8: d, imm
    MovImm(u8, u8),
    // mov Rd, IN: d
    MovIn(u8),
    // mov IN, Ack
    Ack,
    // mov [Addr8], Ra: a, addr
    StoreAddr(u8, u8),
    // mov [Rb], Ra: a, b
    StoreReg(u8, u8),
    // push Ra: a
    Push(u8),
    // mov Rd, [Addr8]: d, addr
    LoadAddr(u8, u8),
    // mov Rd, [Ra]: d, a
    LoadReg(u8, u8),
    // pop Rd: d
    Pop(u8),
    // swap Rd, Ra: d, a
    Swap(u8, u8),
    // jmp Addr8: addr
    Jmp(u8),
    // jmp Ra: a
    JmpReg(u8),
    // call Addr8: addr
    Call(u8),
    // ret
    Ret,
    // the conditional jumps, each to Addr8: addr
    Jz(u8),
    Jnz(u8),
    Jc(u8),
    Jnc(u8),
    Jv(u8),
    Jnv(u8),
    Jlz(u8),
    Jp(u8),
    Jgz(u8),
    Jleu(u8),
    Jlt(u8),
    Jle(u8),
    // mov LCDcmd, Imm8: imm
    LcdCmd(u8),
    // mov LCD, Imm8: imm
    LcdImm(u8),
    // mov LCD, Ra: a
    LcdReg(u8),
    // mov LCD, [Addr8]: addr
    LcdMem(u8),
    // mov OUT, Ra: a
    OutReg(u8),
    // mov OUT, [Addr8]: addr
    OutMem(u8),
    // hlt
    Hlt,
    // nop
    Nop,
}

// An opcode byte as the table writes it: its fixed bits, four before Rd (DD) and six in all where
// the opcode goes on there (OO), then what stands at the letters; Ra (AA), or free bits (XX).
#[derive(Clone, Copy)]
pub enum Opcode {
    DDAA(u8, u8, u8),
    DDXX(u8, u8),
    OOAA(u8, u8),
    OOXX(u8),
}

// An argument byte likewise: the function and Rb, an immediate or address, Rb alone, or free.
#[derive(Clone, Copy)]
pub enum Argument {
    FFFFXXBB(u8, u8),
    IIIIIIII(u8),
    XXXXXXBB(u8),
    XXXXXXXX,
}

// A row of the instruction table: opcode, argument and cycles.
#[derive(Clone, Copy)]
pub struct Row(pub Opcode, pub Argument, pub u8);

// Why an instruction is not encoded, or not put into the two banks. Only putting gives BadBank.
#[derive(Clone, Copy)]
pub enum EncodeError {
    BadBank,
    BadRegister,
    BadFunction,
}

// What an instruction does to V.
#[derive(Clone, Copy)]
pub enum OverflowEffect {
    Keeps,
    Settles,
    Unsettles,
}

// How an instruction goes on, with its address or with the register that goes to the stack. A
// branch also says whether it tests V.
#[derive(Clone, Copy)]
pub enum Class {
    Next(OverflowEffect),
    Jump(u8),
    Branch(u8, bool),
    JumpReg,
    Call(u8),
    Return,
    Push(u8),
    Pop,
    Swap(u8),
    Halt,
}

// What later layers ask of an instruction: its class, and whether it writes to the roll.
#[derive(Clone, Copy)]
pub struct Facts(pub Class, pub bool);
