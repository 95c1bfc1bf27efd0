// The table by which characters are read.

// The value of each byte as a character, and 64 for a byte that is none.
pub(crate) static VALUES: [u8; 256] = [
    64, // byte 0
    64, // byte 1
    64, // byte 2
    64, // byte 3
    64, // byte 4
    64, // byte 5
    64, // byte 6
    64, // byte 7
    64, // byte 8
    64, // byte 9
    64, // byte 10
    64, // byte 11
    64, // byte 12
    64, // byte 13
    64, // byte 14
    64, // byte 15
    64, // byte 16
    64, // byte 17
    64, // byte 18
    64, // byte 19
    64, // byte 20
    64, // byte 21
    64, // byte 22
    64, // byte 23
    64, // byte 24
    64, // byte 25
    64, // byte 26
    64, // byte 27
    64, // byte 28
    64, // byte 29
    64, // byte 30
    64, // byte 31
    64, // byte 32
    64, // !
    64, // "
    64, // #
    64, // $
    64, // %
    64, // &
    64, // '
    64, // (
    64, // )
    64, // *
    62, // +
    64, // ,
    64, // -
    64, // .
    63, // /
    52, // 0
    53, // 1
    54, // 2
    55, // 3
    56, // 4
    57, // 5
    58, // 6
    59, // 7
    60, // 8
    61, // 9
    64, // :
    64, // ;
    64, // <
    64, // =
    64, // >
    64, // ?
    64, // @
    0, // A
    1, // B
    2, // C
    3, // D
    4, // E
    5, // F
    6, // G
    7, // H
    8, // I
    9, // J
    10, // K
    11, // L
    12, // M
    13, // N
    14, // O
    15, // P
    16, // Q
    17, // R
    18, // S
    19, // T
    20, // U
    21, // V
    22, // W
    23, // X
    24, // Y
    25, // Z
    64, // [
    64, // \
    64, // ]
    64, // ^
    64, // _
    64, // `
    26, // a
    27, // b
    28, // c
    29, // d
    30, // e
    31, // f
    32, // g
    33, // h
    34, // i
    35, // j
    36, // k
    37, // l
    38, // m
    39, // n
    40, // o
    41, // p
    42, // q
    43, // r
    44, // s
    45, // t
    46, // u
    47, // v
    48, // w
    49, // x
    50, // y
    51, // z
    64, // {
    64, // |
    64, // }
    64, // ~
    64, // byte 127
    64, // byte 128
    64, // byte 129
    64, // byte 130
    64, // byte 131
    64, // byte 132
    64, // byte 133
    64, // byte 134
    64, // byte 135
    64, // byte 136
    64, // byte 137
    64, // byte 138
    64, // byte 139
    64, // byte 140
    64, // byte 141
    64, // byte 142
    64, // byte 143
    64, // byte 144
    64, // byte 145
    64, // byte 146
    64, // byte 147
    64, // byte 148
    64, // byte 149
    64, // byte 150
    64, // byte 151
    64, // byte 152
    64, // byte 153
    64, // byte 154
    64, // byte 155
    64, // byte 156
    64, // byte 157
    64, // byte 158
    64, // byte 159
    64, // byte 160
    64, // byte 161
    64, // byte 162
    64, // byte 163
    64, // byte 164
    64, // byte 165
    64, // byte 166
    64, // byte 167
    64, // byte 168
    64, // byte 169
    64, // byte 170
    64, // byte 171
    64, // byte 172
    64, // byte 173
    64, // byte 174
    64, // byte 175
    64, // byte 176
    64, // byte 177
    64, // byte 178
    64, // byte 179
    64, // byte 180
    64, // byte 181
    64, // byte 182
    64, // byte 183
    64, // byte 184
    64, // byte 185
    64, // byte 186
    64, // byte 187
    64, // byte 188
    64, // byte 189
    64, // byte 190
    64, // byte 191
    64, // byte 192
    64, // byte 193
    64, // byte 194
    64, // byte 195
    64, // byte 196
    64, // byte 197
    64, // byte 198
    64, // byte 199
    64, // byte 200
    64, // byte 201
    64, // byte 202
    64, // byte 203
    64, // byte 204
    64, // byte 205
    64, // byte 206
    64, // byte 207
    64, // byte 208
    64, // byte 209
    64, // byte 210
    64, // byte 211
    64, // byte 212
    64, // byte 213
    64, // byte 214
    64, // byte 215
    64, // byte 216
    64, // byte 217
    64, // byte 218
    64, // byte 219
    64, // byte 220
    64, // byte 221
    64, // byte 222
    64, // byte 223
    64, // byte 224
    64, // byte 225
    64, // byte 226
    64, // byte 227
    64, // byte 228
    64, // byte 229
    64, // byte 230
    64, // byte 231
    64, // byte 232
    64, // byte 233
    64, // byte 234
    64, // byte 235
    64, // byte 236
    64, // byte 237
    64, // byte 238
    64, // byte 239
    64, // byte 240
    64, // byte 241
    64, // byte 242
    64, // byte 243
    64, // byte 244
    64, // byte 245
    64, // byte 246
    64, // byte 247
    64, // byte 248
    64, // byte 249
    64, // byte 250
    64, // byte 251
    64, // byte 252
    64, // byte 253
    64, // byte 254
    64, // byte 255
];
