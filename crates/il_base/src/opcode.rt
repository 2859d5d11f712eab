//! Opcodes of the profile (III.3, III.4). An opcode whose first byte is fe has that byte above its second.

pub const NOP: u16 = 0x00;

pub const LDARG_0: u16 = 0x02;

pub const LDARG_1: u16 = 0x03;

pub const LDARG_2: u16 = 0x04;

pub const LDARG_3: u16 = 0x05;

pub const LDLOC_0: u16 = 0x06;

pub const LDLOC_1: u16 = 0x07;

pub const LDLOC_2: u16 = 0x08;

pub const LDLOC_3: u16 = 0x09;

pub const STLOC_0: u16 = 0x0a;

pub const STLOC_1: u16 = 0x0b;

pub const STLOC_2: u16 = 0x0c;

pub const STLOC_3: u16 = 0x0d;

pub const LDARG_S: u16 = 0x0e;

pub const LDARGA_S: u16 = 0x0f;

pub const STARG_S: u16 = 0x10;

pub const LDLOC_S: u16 = 0x11;

pub const LDLOCA_S: u16 = 0x12;

pub const STLOC_S: u16 = 0x13;

pub const LDNULL: u16 = 0x14;

pub const LDC_I4_M1: u16 = 0x15;

pub const LDC_I4_0: u16 = 0x16;

pub const LDC_I4_8: u16 = 0x1e;

pub const LDC_I4_S: u16 = 0x1f;

pub const LDC_I4: u16 = 0x20;

pub const LDC_I8: u16 = 0x21;

pub const DUP: u16 = 0x25;

pub const POP: u16 = 0x26;

pub const CALL: u16 = 0x28;

pub const RET: u16 = 0x2a;

pub const BR_S: u16 = 0x2b;

pub const BRFALSE_S: u16 = 0x2c;

pub const BRTRUE_S: u16 = 0x2d;

pub const BEQ_S: u16 = 0x2e;

pub const BGE_S: u16 = 0x2f;

pub const BGT_S: u16 = 0x30;

pub const BLE_S: u16 = 0x31;

pub const BLT_S: u16 = 0x32;

pub const BNE_UN_S: u16 = 0x33;

pub const BGE_UN_S: u16 = 0x34;

pub const BGT_UN_S: u16 = 0x35;

pub const BLE_UN_S: u16 = 0x36;

pub const BLT_UN_S: u16 = 0x37;

pub const BR: u16 = 0x38;

pub const BRFALSE: u16 = 0x39;

pub const BRTRUE: u16 = 0x3a;

pub const BEQ: u16 = 0x3b;

pub const BGE: u16 = 0x3c;

pub const BGT: u16 = 0x3d;

pub const BLE: u16 = 0x3e;

pub const BLT: u16 = 0x3f;

pub const BNE_UN: u16 = 0x40;

pub const BGE_UN: u16 = 0x41;

pub const BGT_UN: u16 = 0x42;

pub const BLE_UN: u16 = 0x43;

pub const BLT_UN: u16 = 0x44;

pub const SWITCH: u16 = 0x45;

pub const LDIND_I1: u16 = 0x46;

pub const LDIND_U1: u16 = 0x47;

pub const LDIND_I2: u16 = 0x48;

pub const LDIND_U2: u16 = 0x49;

pub const LDIND_I4: u16 = 0x4a;

pub const LDIND_U4: u16 = 0x4b;

pub const LDIND_I8: u16 = 0x4c;

pub const LDIND_I: u16 = 0x4d;

pub const LDIND_REF: u16 = 0x50;

pub const STIND_REF: u16 = 0x51;

pub const STIND_I1: u16 = 0x52;

pub const STIND_I2: u16 = 0x53;

pub const STIND_I4: u16 = 0x54;

pub const STIND_I8: u16 = 0x55;

pub const ADD: u16 = 0x58;

pub const SUB: u16 = 0x59;

pub const MUL: u16 = 0x5a;

pub const DIV: u16 = 0x5b;

pub const DIV_UN: u16 = 0x5c;

pub const REM: u16 = 0x5d;

pub const REM_UN: u16 = 0x5e;

pub const AND: u16 = 0x5f;

pub const OR: u16 = 0x60;

pub const XOR: u16 = 0x61;

pub const SHL: u16 = 0x62;

pub const SHR: u16 = 0x63;

pub const SHR_UN: u16 = 0x64;

pub const NEG: u16 = 0x65;

pub const NOT: u16 = 0x66;

pub const CONV_I1: u16 = 0x67;

pub const CONV_I2: u16 = 0x68;

pub const CONV_I4: u16 = 0x69;

pub const CONV_I8: u16 = 0x6a;

pub const CONV_U4: u16 = 0x6d;

pub const CONV_U8: u16 = 0x6e;

pub const CALLVIRT: u16 = 0x6f;

pub const CPOBJ: u16 = 0x70;

pub const LDOBJ: u16 = 0x71;

pub const LDSTR: u16 = 0x72;

pub const NEWOBJ: u16 = 0x73;

pub const CASTCLASS: u16 = 0x74;

pub const ISINST: u16 = 0x75;

pub const UNBOX: u16 = 0x79;

pub const THROW: u16 = 0x7a;

pub const LDFLD: u16 = 0x7b;

pub const LDFLDA: u16 = 0x7c;

pub const STFLD: u16 = 0x7d;

pub const LDSFLD: u16 = 0x7e;

pub const LDSFLDA: u16 = 0x7f;

pub const STSFLD: u16 = 0x80;

pub const STOBJ: u16 = 0x81;

pub const CONV_OVF_I1_UN: u16 = 0x82;

pub const CONV_OVF_I2_UN: u16 = 0x83;

pub const CONV_OVF_I4_UN: u16 = 0x84;

pub const CONV_OVF_I8_UN: u16 = 0x85;

pub const CONV_OVF_U1_UN: u16 = 0x86;

pub const CONV_OVF_U2_UN: u16 = 0x87;

pub const CONV_OVF_U4_UN: u16 = 0x88;

pub const CONV_OVF_U8_UN: u16 = 0x89;

pub const CONV_OVF_I_UN: u16 = 0x8a;

pub const CONV_OVF_U_UN: u16 = 0x8b;

pub const BOX: u16 = 0x8c;

pub const NEWARR: u16 = 0x8d;

pub const LDLEN: u16 = 0x8e;

pub const LDELEMA: u16 = 0x8f;

pub const LDELEM_I1: u16 = 0x90;

pub const LDELEM_U1: u16 = 0x91;

pub const LDELEM_I2: u16 = 0x92;

pub const LDELEM_U2: u16 = 0x93;

pub const LDELEM_I4: u16 = 0x94;

pub const LDELEM_U4: u16 = 0x95;

pub const LDELEM_I8: u16 = 0x96;

pub const LDELEM_I: u16 = 0x97;

pub const LDELEM_REF: u16 = 0x9a;

pub const STELEM_I: u16 = 0x9b;

pub const STELEM_I1: u16 = 0x9c;

pub const STELEM_I2: u16 = 0x9d;

pub const STELEM_I4: u16 = 0x9e;

pub const STELEM_I8: u16 = 0x9f;

pub const STELEM_REF: u16 = 0xa2;

pub const LDELEM: u16 = 0xa3;

pub const STELEM: u16 = 0xa4;

pub const UNBOX_ANY: u16 = 0xa5;

pub const CONV_OVF_I1: u16 = 0xb3;

pub const CONV_OVF_U1: u16 = 0xb4;

pub const CONV_OVF_I2: u16 = 0xb5;

pub const CONV_OVF_U2: u16 = 0xb6;

pub const CONV_OVF_I4: u16 = 0xb7;

pub const CONV_OVF_U4: u16 = 0xb8;

pub const CONV_OVF_I8: u16 = 0xb9;

pub const CONV_OVF_U8: u16 = 0xba;

pub const LDTOKEN: u16 = 0xd0;

pub const CONV_U2: u16 = 0xd1;

pub const CONV_U1: u16 = 0xd2;

pub const CONV_I: u16 = 0xd3;

pub const CONV_OVF_I: u16 = 0xd4;

pub const CONV_OVF_U: u16 = 0xd5;

pub const ADD_OVF: u16 = 0xd6;

pub const ADD_OVF_UN: u16 = 0xd7;

pub const MUL_OVF: u16 = 0xd8;

pub const MUL_OVF_UN: u16 = 0xd9;

pub const SUB_OVF: u16 = 0xda;

pub const SUB_OVF_UN: u16 = 0xdb;

pub const ENDFINALLY: u16 = 0xdc;

pub const LEAVE: u16 = 0xdd;

pub const LEAVE_S: u16 = 0xde;

pub const STIND_I: u16 = 0xdf;

pub const CONV_U: u16 = 0xe0;

pub const CEQ: u16 = 0xfe01;

pub const CGT: u16 = 0xfe02;

pub const CGT_UN: u16 = 0xfe03;

pub const CLT: u16 = 0xfe04;

pub const CLT_UN: u16 = 0xfe05;

pub const LDARG: u16 = 0xfe09;

pub const LDARGA: u16 = 0xfe0a;

pub const STARG: u16 = 0xfe0b;

pub const LDLOC: u16 = 0xfe0c;

pub const LDLOCA: u16 = 0xfe0d;

pub const STLOC: u16 = 0xfe0e;

pub const VOLATILE: u16 = 0xfe13;

pub const INITOBJ: u16 = 0xfe15;

pub const CONSTRAINED: u16 = 0xfe16;

pub const RETHROW: u16 = 0xfe1a;

pub const READONLY: u16 = 0xfe1e;
